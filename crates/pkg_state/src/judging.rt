ghost use Rattle.std.specs.Prelude.{◌≡◌, IfErr, IfOk, IfSome, MatchResult, OnOk, true};
ghost use Rattle.pkg_state.specs.Consistent.{AreConsistent};
ghost use Rattle.pkg_state.specs.Fault.{Fault, IsFirstFault, IsTold, IsWrong, is_right, told};
ghost use Rattle.pkg_state.specs.declared.broken.Broken.TheVariants.{Memory};

use crate::around::Around;
use crate::broken::Broken;
use crate::class::Class;
use crate::leaf::copy_leaf;
use crate::package::Pkg;
use crate::twins::first_twins;
use std::alloc::{AllocError, Global};

/// Judges one package among the others.
fn judge(alloc: Global, one: &Pkg, around: &Around<'_>) -> Result<(), Broken>
    ensures ok { OnOk result (is_right around.now.packages.now one.now ≡ true) }
    ensures wrong { IfErr result (λ e.
        IfSome (told e) (IsWrong around.now.packages.now one.now)) }
{
    if !one.fits_required() {
        let package = one.facts.id.try_clone()?;
        return Err(Broken::RequiredUse { package });
    }
    if let Some(by) = around.blocker(alloc, one)? {
        let package = one.facts.id.try_clone()?;
        let by = by.facts.id.try_clone()?;
        return Err(Broken::Blocked { package, by });
    }
    if !one.is_met(Class::Rdepend, around) {
        let leaf = copy_leaf(one.lacking_leaf(Class::Rdepend, around))?;
        let package = one.facts.id.try_clone()?;
        return Err(Broken::Runtime { package, leaf });
    }
    Ok(())
}

fn judge_all(alloc: Global, packages: &[Pkg]) -> Result<(), Broken>
    ensures ok { OnOk result (AreConsistent packages.now) }
    ensures fault { IfErr result (λ e. IfSome (told e) (IsFirstFault packages.now)) }
{
    if let Some((one, other)) = first_twins(alloc, packages)? {
        let package = one.facts.id.try_clone()?;
        let other = other.facts.id.try_clone()?;
        return Err(Broken::SlotTwice { package, other });
    }
    let around = Around::new(alloc, packages)?;
    for package in packages {
        judge(alloc, package, &around)?;
    }
    Ok(())
}

/// Judges packages side by side: first whether two are on one line, and then package by package its
/// flags, the blocks on it and its needs. It takes time in n log n of packages and leaves.
pub fn consistent(alloc: Global, packages: &[Pkg]) -> Result<(), Broken>
    ensures ok { OnOk result (AreConsistent packages.now) }
    ensures fault { IfErr result (λ e. IfSome (told e) (IsFirstFault packages.now)) }
    ensures fine { AreConsistent packages.now → IfErr result (λ e. e ≡ Memory) }
    ensures only { (a : Fault) → IsFirstFault packages.now a →
        MatchResult result (λ _. ⊥) (IsTold a) }
{
    judge_all(alloc, packages)
}
