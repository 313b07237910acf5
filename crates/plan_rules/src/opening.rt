ghost use Rattle.plan_rules.specs.Order.{AreInOrder, package_key};
ghost use Rattle.plan_rules.specs.Refusals.{Says};
ghost use Rattle.plan_rules.specs.Rules.{opening_rule};

use crate::line_order::in_line_order;
use crate::refusal::PlanRefused;
use pkg_state::{Broken, Pkg, consistent};
use std::alloc::Global;

/// Tells what is first wrong with the packages, by their lines.
fn judge_by_line(alloc: Global, start: &[Pkg]) -> Result<(), PlanRefused>
    ensures { Says (opening_rule start.now) result }
{
    let packages = in_line_order(alloc, start)?;
    match consistent(alloc, &packages) {
        Ok(()) => Ok(()),
        Err(fault) => Err(PlanRefused::Opening(fault)),
    }
}

/// Whether the packages are consistent to begin with.
pub fn judge_opening(alloc: Global, start: &[Pkg]) -> Result<(), PlanRefused>
    ensures { Says (opening_rule start.now) result }
{
    if consistent(alloc, start).is_ok() {
        return Ok(());
    }
    judge_by_line(alloc, start)
}
