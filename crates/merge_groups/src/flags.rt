ghost use Rattle.std.specs.Prelude.{◌≡◌, IfOk, filter};
ghost use Rattle.pms_names.specs.Flags.{has};
ghost use Rattle.merge_groups.specs.Order.{enabled_of};

use pkg_state::Pkg;
use pms_names::Flags;
use std::alloc::{AllocError, Global};

/// Those of the flags that are known.
fn known_of(alloc: Global, known: &Flags, flags: &Flags) -> Result<Flags, AllocError>
    ensures { IfOk result (λ kept. kept ≡ filter (has known.now) flags.now) }
{
    let mut kept = Flags::new(alloc);
    for flag in flags.list() {
        if known.has(flag) {
            kept.insert(flag.try_clone()?)?;
        }
    }
    let _listed = kept.list();
    Ok(kept)
}

/// The flags that a package knows and that are on.
pub(crate) fn enabled_of(alloc: Global, pkg: &Pkg) -> Result<Flags, AllocError>
    ensures { IfOk result (λ flags. flags ≡ enabled_of pkg.now) }
{
    known_of(alloc, &pkg.facts.iuse, &pkg.facts.enabled)
}
