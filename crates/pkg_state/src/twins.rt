ghost use Rattle.std.specs.Prelude.{IfOk, MatchOption};
ghost use Rattle.pkg_state.specs.Consistent.{AreApart};
ghost use Rattle.pkg_state.specs.Fault.{AreFirstTwins};

use crate::line::LineName;
use crate::package::Pkg;
use std::alloc::{AllocError, Global};
use std::collections::BTreeMap;

/// The first two packages that are on one line, if any are.
pub fn first_twins<'a>(
    alloc: Global,
    packages: &'a [Pkg],
) -> Result<Option<(&'a Pkg, &'a Pkg)>, AllocError>
    ensures { IfOk result (λ found. MatchOption found (AreApart packages.now)
        (λ twins. AreFirstTwins packages.now twins.0.now twins.1.now)) }
{
    let mut lines: BTreeMap<LineName, &'a Pkg> = BTreeMap::new(alloc);
    for package in packages {
        let line = package.line(alloc)?;
        if let Some(twin) = lines.insert(line, package)? {
            return Ok(Some((twin, package)));
        }
    }
    Ok(None)
}
