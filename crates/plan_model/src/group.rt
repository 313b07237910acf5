ghost use Rattle.std.specs.Prelude.{◌≡◌, ◌-◌, ◌<◌, IfOk, map};
ghost use Rattle.std.specs.List.{AllZip};
ghost use Rattle.basics.specs.Limits.{most_groups};
ghost use Rattle.plan_text.specs.Plans.{group_value};
ghost use Rattle.plan_rules.specs.Verdicts.{each};
ghost use Rattle.plan_model.specs.Faults.{Says, addition_rule, flag_rule, group_rule};
ghost use Rattle.plan_model.specs.Linked.{IsLinkedGroup, removal_of};
ghost use Rattle.plan_model.specs.Offers.{Brings};

use crate::fault::LinkFault;
use crate::finding::find;
use crate::offers::Offers;
use crate::package::entering;
use build_pool::Order;
use pkg_state::Pkg;
use plan_lives as lives;
use plan_text::{Group, Removal};
use std::alloc::{AllocError, Global};

/// Whether the package knows each flag of the addition.
fn judge_flags(g: usize, addition: &Order, pkg: &Pkg) -> Result<(), LinkFault>
    requires { g < most_groups }
    ensures { Says (each addition.now.enabled
        (flag_rule g addition.now pkg.now)) result }
{
    for flag in addition.enabled.list() {
        if !pkg.facts.iuse.has(flag) {
            let package = addition.id.try_clone()?;
            let flag = flag.try_clone()?;
            return Err(LinkFault::BadFlag {
                group: g + 1,
                package,
                flag,
            });
        }
    }
    Ok(())
}

/// What the addition brings.
fn link_addition(
    alloc: Global,
    offers: &Offers<'_>,
    g: usize,
    addition: &Order,
) -> Result<Pkg, LinkFault>
    requires { g < most_groups }
    ensures brings { IfOk result (λ q.
        Brings offers.now.offered.now addition.now q) }
    ensures says { Says (addition_rule offers.now.offered.now g addition.now)
        result }
{
    let Some(pkg) = find(addition, offers) else {
        let package = addition.id.try_clone()?;
        return Err(LinkFault::NoCandidate {
            group: g + 1,
            package,
        });
    };
    judge_flags(g, addition, pkg)?;
    Ok(entering(alloc, addition, pkg)?)
}

fn link_additions(
    alloc: Global,
    offers: &Offers<'_>,
    g: usize,
    additions: &[Order],
) -> Result<Vec<Pkg>, LinkFault>
    requires { g < most_groups }
    ensures brings { IfOk result (λ linked.
        AllZip (Brings offers.now.offered.now) additions.now linked.items) }
    ensures says { Says (each additions.now
        (addition_rule offers.now.offered.now g)) result }
{
    let mut linked = Vec::new(alloc);
    for addition in additions {
        linked.push(link_addition(alloc, offers, g, addition)?)?;
    }
    Ok(linked)
}

/// The places of groups with these numbers.
fn places(alloc: Global, numbers: &[u32]) -> Result<Vec<usize>, AllocError>
    ensures { IfOk result (λ places. places.items ≡ map (λ n. n - 1) numbers.now) }
{
    let mut places = Vec::new(alloc);
    for number in numbers {
        places.push(number.saturating_sub(1) as usize)?;
    }
    Ok(places)
}

fn removal_of(removal: &Removal) -> Result<lives::Removal, AllocError>
    ensures { IfOk result (λ r. r ≡ removal_of removal.now) }
{
    let id = removal.id.try_clone()?;
    let slot = removal.slot.try_clone()?;
    Ok(lives::Removal { id, slot })
}

fn removals_of(alloc: Global, removals: &[Removal]) -> Result<Vec<lives::Removal>, AllocError>
    ensures { IfOk result (λ copies. copies.items ≡ map removal_of removals.now) }
{
    let mut copies = Vec::new(alloc);
    for removal in removals {
        copies.push(removal_of(removal)?)?;
    }
    Ok(copies)
}

/// The group at a place of the text.
pub(crate) fn link_group(
    alloc: Global,
    offers: &Offers<'_>,
    g: usize,
    group: &Group,
) -> Result<lives::Group, LinkFault>
    requires { g < most_groups }
    ensures linked { IfOk result (λ r.
        IsLinkedGroup offers.now.offered.now (group_value group.now) r) }
    ensures says { Says (group_rule offers.now.offered.now g (group_value group.now)) result }
{
    let additions = link_additions(alloc, offers, g, &group.additions)?;
    let removals = removals_of(alloc, &group.removals)?;
    let after = places(alloc, &group.after)?;
    Ok(lives::Group {
        after,
        removals,
        additions,
    })
}
