ghost use Rattle.std.specs.Prelude.{◌≡◌, ◌≢◌, ◌≤◌, IfErr, IfOk, None, Some, length, map};
ghost use Rattle.plan_text.specs.Plans.{group_value, plan_value};
ghost use Rattle.plan_text.specs.Texts.{IsPlan};
ghost use Rattle.basics.specs.Limits.{most_groups};
ghost use Rattle.plan_model.specs.Faults.{Says, link_rule};
ghost use Rattle.plan_model.specs.Linked.{IsLinked};
ghost use Rattle.plan_model.specs.declared.fault.LinkFault.TheVariants.{Memory};

use crate::fault::LinkFault;
use crate::group::link_group;
use crate::offers::Offers;
use pkg_state::Pkg;
use plan_lives as lives;
use plan_text::{Group, Plan};
use std::alloc::Global;

fn link_groups(
    alloc: Global,
    offers: &Offers<'_>,
    groups: &[Group],
) -> Result<Vec<lives::Group>, LinkFault>
    requires { length groups.now ≤ most_groups }
    ensures linked { IfOk result (λ plan.
        IsLinked offers.now.offered.now (map group_value groups.now) plan.items) }
    ensures says { Says (link_rule offers.now.offered.now (map group_value groups.now)) result }
{
    let mut linked = Vec::new(alloc);
    for (g, group) in groups.iter().enumerate() {
        linked.push(link_group(alloc, offers, g, group)?)?;
    }
    Ok(linked)
}

/// The plan that the text stands for, over the packages that are offered. The flags that these have
/// on are the implicit ones.
pub fn link(alloc: Global, text: &Plan, offered: &[Pkg]) -> Result<lives::Plan, LinkFault>
    requires { IsPlan (plan_value text.now) }
    ensures found { IfOk result (λ plan. IsLinked offered.now (plan_value text.now) plan) }
    ensures fine { link_rule offered.now (plan_value text.now) None →
        IfErr result (λ e. e ≡ Memory) }
    ensures fault { IfErr result (λ e. e ≢ Memory →
        link_rule offered.now (plan_value text.now) (Some e)) }
{
    let offers = Offers::new(alloc, offered)?;
    let groups = link_groups(alloc, &offers, &text.groups)?;
    match lives::Plan::new(groups) {
        Some(plan) => Ok(plan),
        None => unreachable!(),
    }
}
