ghost use Rattle.std.specs.Prelude.{◌≡◌, IfOk};
ghost use Rattle.pkg_state.specs.Package.{with_enabled, with_flags};

use crate::package::Pkg;
use dep_atom::Facts;
use pms_names::Flags;
use std::alloc::AllocError;

/// The same facts, in memory of their own.
pub fn copy_facts(facts: &Facts) -> Result<Facts, AllocError>
    ensures { IfOk result (λ copy. copy ≡ facts.now) }
{
    let id = facts.id.try_clone()?;
    let slot = facts.slot.try_clone()?;
    let subslot = facts.subslot.try_clone()?;
    let iuse = facts.iuse.try_clone()?;
    let enabled = facts.enabled.try_clone()?;
    Ok(Facts {
        id,
        slot,
        subslot,
        iuse,
        enabled,
    })
}

/// The same facts, but with just these flags on.
pub fn facts_with(facts: &Facts, on: Flags) -> Result<Facts, AllocError>
    ensures { IfOk result (λ copy. copy ≡ with_flags on facts.now) }
{
    let mut copy = copy_facts(facts)?;
    copy.enabled = on;
    Ok(copy)
}

/// The same package, but for its facts.
fn with_facts(pkg: &Pkg, facts: Facts) -> Result<Pkg, AllocError>
    ensures { IfOk result (λ copy. copy ≡ record pkg.now { facts = facts }) }
{
    let rdepend = pkg.rdepend.try_clone()?;
    let pdepend = pkg.pdepend.try_clone()?;
    let depend = pkg.depend.try_clone()?;
    let bdepend = pkg.bdepend.try_clone()?;
    let idepend = pkg.idepend.try_clone()?;
    let required_use = pkg.required_use.try_clone()?;
    Ok(Pkg {
        facts,
        eapi: pkg.eapi,
        rdepend,
        pdepend,
        depend,
        bdepend,
        idepend,
        required_use,
    })
}

/// The same package, in memory of its own.
pub fn copy_package(pkg: &Pkg) -> Result<Pkg, AllocError>
    ensures { IfOk result (λ copy. copy ≡ pkg.now) }
{
    let facts = copy_facts(&pkg.facts)?;
    with_facts(pkg, facts)
}

/// The same package, but with just these flags on.
pub fn package_with(pkg: &Pkg, on: Flags) -> Result<Pkg, AllocError>
    ensures { IfOk result (λ copy. copy ≡ with_enabled on pkg.now) }
{
    let facts = facts_with(&pkg.facts, on)?;
    with_facts(pkg, facts)
}
