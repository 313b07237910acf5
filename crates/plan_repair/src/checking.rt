ghost use Rattle.std.specs.Prelude.{◌≡◌, ◌≤◌, IfErr, IfSome, List, None, OnOk, Some, length, ℕ};
ghost use Rattle.std.specs.Option.{option_map};
ghost use Rattle.pkg_state.specs.Consistent.{AreConsistent};
ghost use Rattle.pkg_state.specs.Fault as state;
ghost use Rattle.plan_law.specs.Plans.{after};
ghost use Rattle.plan_law.specs.Sound.{IsWhole};
ghost use Rattle.plan_check.specs.Asks.{all_asked};
ghost use Rattle.plan_rules.specs.Refusals.{Says, told};
ghost use Rattle.plan_repair.specs.Repair.{IsRepair, consistent_rule, refusal_of, repair_rule};

use crate::bare::all_bare;
use crate::behind::packages_behind;
use pkg_state::{Broken, Class, Pkg, consistent};
use plan_check::{Asked, check};
use plan_lives::Plan;
use plan_rules::{PlanRefused, in_line_order};
use std::alloc::Global;

/// What is wrong with the packages, as the rule that fits tells it.
fn refused(broken: Broken) -> PlanRefused
    ensures { told result ≡ option_map refusal_of (state.told broken) }
{
    match broken {
        Broken::SlotTwice { package, other } => PlanRefused::Occupied {
            group: 1,
            package,
            other,
        },
        Broken::RequiredUse { package } => PlanRefused::RequiredUse { package },
        Broken::Blocked { package, by } => PlanRefused::Blocked {
            package: by,
            other: package,
        },
        Broken::Runtime { package, leaf } => PlanRefused::Unsatisfied {
            group: 0,
            package,
            class: Class::Rdepend,
            leaf,
        },
        Broken::Memory => PlanRefused::Memory,
    }
}

/// Tells what is first wrong with the packages, by their lines.
fn judge_by_line(alloc: Global, packages: &[Pkg]) -> Result<(), PlanRefused>
    ensures { Says (consistent_rule packages.now) result }
{
    let ordered = in_line_order(alloc, packages)?;
    match consistent(alloc, &ordered) {
        Ok(()) => Ok(()),
        Err(broken) => Err(refused(broken)),
    }
}

/// Whether the packages go together.
fn judge_packages(alloc: Global, packages: &[Pkg]) -> Result<(), PlanRefused>
    ensures { Says (consistent_rule packages.now) result }
{
    if consistent(alloc, packages).is_ok() {
        return Ok(());
    }
    judge_by_line(alloc, packages)
}

fn judge(alloc: Global, start: &[Pkg], plan: &Plan, asks: &[Asked<'_>]) -> Result<(), PlanRefused>
    ensures { Says (repair_rule plan.now start.now (all_asked asks.now)) result }
{
    let bare = all_bare(alloc, start)?;
    check(alloc, &bare, plan, asks)?;
    let packages = packages_behind(alloc, start, plan)?;
    judge_packages(alloc, &packages)
}

/// Accepts a plan of at most one group that repairs the packages, or tells the first rule that it
/// breaks. The packages that are there may be broken; two of them on one line are told as a broken
/// opening, and one version on two lines is told as in any plan.
pub fn check_repair(
    alloc: Global,
    start: &[Pkg],
    plan: &Plan,
    asks: &[Asked<'_>],
) -> Result<(), PlanRefused>
    requires { length plan.now ≤ 1 }
    ensures ok { OnOk result (IsRepair plan.now start.now (all_asked asks.now)) }
    ensures whole { OnOk result ((run : List ℕ) → IsWhole plan.now run →
        AreConsistent (after plan.now start.now run)) }
    ensures refused { IfErr result (λ e. IfSome (told e) (λ refusal.
        repair_rule plan.now start.now (all_asked asks.now) (Some refusal))) }
    ensures fine { IsRepair plan.now start.now (all_asked asks.now) →
        IfErr result (λ e. told e ≡ None) }
{
    judge(alloc, start, plan, asks)
}
