ghost use Rattle.std.specs.Prelude.{◌≡◌, IfOk, map};
ghost use Rattle.pkg_state.specs.Package.{line_of};
ghost use Rattle.law_commit.specs.Lit.{packages_of};
ghost use Rattle.run_opening.specs.Order.{AreInLineOrder, line_cmp, recorded_of};

use crate::lighting::lit;
use pkg_state::{LineName, Pkg};
use pms_names::Flags;
use std::alloc::{AllocError, Global};
use std::cmp::Ordering;
use vdb_record::Installed;

/// A package with the line on which it stands.
#[derive(Drop)]
struct Lined<'a> {
    line: LineName,
    pkg: &'a Pkg,
    ghost own: { line ≡ line_of pkg.now.facts },
}

/// Copies of the packages with these flags on, in line order.
pub(crate) fn in_line_order(
    alloc: Global,
    packages: &[Installed],
    implicit: &Flags,
) -> Result<Vec<Pkg>, AllocError>
    ensures { IfOk result (λ v. AreInLineOrder (packages_of implicit.now packages.now) v.items) }
{
    let lined = sorted(alloc, packages)?;
    let mut copies = Vec::with_capacity(alloc, lined.len())?;
    for one in &lined {
        copies.push(lit(one.pkg, implicit)?)?;
    }
    Ok(copies)
}

fn sorted(alloc: Global, packages: &[Installed]) -> Result<Vec<Lined<'_>>, AllocError>
    ensures { IfOk result (λ v. AreInLineOrder (recorded_of packages.now)
        (map (λ l. l.pkg.now) v.items)) }
{
    let mut lined = all_lined(alloc, packages)?;
    lined.sort_by(|a, b| compare(a, b))?;
    Ok(lined)
}

fn all_lined(alloc: Global, packages: &[Installed]) -> Result<Vec<Lined<'_>>, AllocError>
    ensures { IfOk result (λ v. map (λ l. l.pkg.now) v.items ≡ recorded_of packages.now) }
{
    let mut lined = Vec::with_capacity(alloc, packages.len())?;
    for package in packages {
        let pkg = &package.pkg;
        let line = pkg.line(alloc)?;
        lined.push(Lined { line, pkg })?;
    }
    Ok(lined)
}

/// By the line, and on one line by the text of the version.
fn compare(a: &Lined<'_>, b: &Lined<'_>) -> Ordering
    ensures { result ≡ line_cmp a.now.pkg.now b.now.pkg.now }
{
    let one = a.pkg;
    let other = b.pkg;
    let first = one.facts.id.version.text();
    let second = other.facts.id.version.text();
    a.line.cmp(&b.line).then(first.cmp(second))
}
