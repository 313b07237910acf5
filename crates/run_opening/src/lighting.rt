ghost use Rattle.std.specs.Prelude.{◌≡◌, IfOk, OnOk};
ghost use Rattle.law_commit.specs.Lit.{lit, lit_flags};

use pkg_state::{Pkg, copy_package};
use pms_names::Flags;
use std::alloc::AllocError;

/// A copy of the package with these flags on beside its own, as a run sees it that has them on for
/// every package.
pub fn lit(pkg: &Pkg, flags: &Flags) -> Result<Pkg, AllocError>
    ensures { IfOk result (λ p. p ≡ lit flags.now pkg.now) }
{
    let mut copy = copy_package(pkg)?;
    add_flags(&mut copy.facts.enabled, flags)?;
    Ok(copy)
}

fn add_flags(on: &mut Flags, flags: &Flags) -> Result<(), AllocError>
    ensures { OnOk result (on.new ≡ lit_flags flags.now on.old) }
{
    let _listed = on.list();
    for flag in flags.list() {
        let _new = on.insert(flag.try_clone()?)?;
    }
    Ok(())
}
