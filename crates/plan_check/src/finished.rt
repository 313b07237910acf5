ghost use Rattle.std.specs.Prelude.{◌≡◌, List, false, map};
ghost use Rattle.pkg_state.specs.Consistent.{facts_of, is_met};
ghost use Rattle.pkg_state.specs.Fault.{lacking_leaf};
ghost use Rattle.pkg_state.specs.Package.{Package};
ghost use Rattle.pkg_state.specs.declared.class.Class.TheVariants.{Pdepend};
ghost use Rattle.plan_law.specs.Plans.{Group};
ghost use Rattle.plan_lives.specs.Lives.{life_of, moment_of};
ghost use Rattle.plan_lives.specs.Left.{left_of};
ghost use Rattle.plan_check.specs.PackageRules.{finished_rule, if_left};
ghost use Rattle.plan_rules.specs.Refusals.Refusal.{Final};
ghost use Rattle.plan_rules.specs.Refusals.{Says};
ghost use Rattle.plan_rules.specs.Verdicts.{refuse};

use pkg_state::{Class, Pkg, copy_leaf};
use plan_lives::{Life, Moment, Packages};
use plan_rules::PlanRefused;

fn judge_left(left: &Packages<'_>, pkg: &Pkg) -> Result<(), PlanRefused>
    ensures { Says (refuse
        (is_met (facts_of (map (λ p. p.now) left.now.all.items)) Pdepend pkg.now ≡ false)
        (Final pkg.now.facts.id
        (lacking_leaf (facts_of (map (λ p. p.now) left.now.all.items)) Pdepend pkg.now)))
        result }
{
    if !pkg.is_met(Class::Pdepend, left) {
        let leaf = copy_leaf(pkg.lacking_leaf(Class::Pdepend, left))?;
        let package = pkg.facts.id.try_clone()?;
        return Err(PlanRefused::Final { package, leaf });
    }
    Ok(())
}

fn judge_end(left: &Packages<'_>, death: Moment, pkg: &Pkg) -> Result<(), PlanRefused>
    ensures { Says (if_left (moment_of death) (refuse
        (is_met (facts_of (map (λ p. p.now) left.now.all.items)) Pdepend pkg.now ≡ false)
        (Final pkg.now.facts.id
        (lacking_leaf (facts_of (map (λ p. p.now) left.now.all.items)) Pdepend pkg.now))))
        result }
{
    match death {
        Moment::Opening => Ok(()),
        Moment::Commit(_) => Ok(()),
        Moment::Never => judge_left(left, pkg),
    }
}

/// Whether what an addition wants later is there at the end, where these packages are left.
pub(crate) fn judge_finished(left: &Packages<'_>, x: &Life<'_>) -> Result<(), PlanRefused>
    ensures { (plan : List Group) (start : List Package) →
        map (λ p. p.now) left.now.all.items ≡ left_of plan start →
        Says (finished_rule plan start (life_of x.now)) result }
{
    match x.birth {
        Moment::Opening => Ok(()),
        Moment::Commit(_) => judge_end(left, x.death, x.pkg),
        Moment::Never => Ok(()),
    }
}
