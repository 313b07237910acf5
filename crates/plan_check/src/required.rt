ghost use Rattle.std.specs.Prelude.{◌≡◌, false};
ghost use Rattle.pkg_state.specs.Consistent.{fits_required};
ghost use Rattle.plan_lives.specs.Lives.{life_of};
ghost use Rattle.plan_check.specs.PackageRules.{required_rule};
ghost use Rattle.plan_rules.specs.Refusals.Refusal.{RequiredUse};
ghost use Rattle.plan_rules.specs.Refusals.{Says};
ghost use Rattle.plan_rules.specs.Verdicts.{refuse};

use pkg_state::Pkg;
use plan_lives::{Life, Moment};
use plan_rules::PlanRefused;

fn judge_addition(pkg: &Pkg) -> Result<(), PlanRefused>
    ensures { Says (refuse (fits_required pkg.now ≡ false) (RequiredUse pkg.now.facts.id)) result }
{
    if !pkg.fits_required() {
        let package = pkg.facts.id.try_clone()?;
        return Err(PlanRefused::RequiredUse { package });
    }
    Ok(())
}

/// Whether the flags of an addition go together.
pub(crate) fn judge_required(x: &Life<'_>) -> Result<(), PlanRefused>
    ensures { Says (required_rule (life_of x.now)) result }
{
    match x.birth {
        Moment::Opening => Ok(()),
        Moment::Commit(_) => judge_addition(x.pkg),
        Moment::Never => Ok(()),
    }
}
