ghost use Rattle.std.specs.Prelude.{◌≡◌, IfOk, map};
ghost use Rattle.std.specs.List.{AllByRecursion};
ghost use Rattle.choice_tree.specs.Views.{universe_of};
ghost use Rattle.plan_text.specs.Plans.{group_value, plan_value};
ghost use Rattle.plan_text.specs.Texts.{IsAddition, IsPlan};
ghost use Rattle.plan_text.specs.Words.{IsRemoval};
ghost use Rattle.merge_groups.specs.Changes.{those};
ghost use Rattle.merge_groups.specs.Order.{AreInTextOrder, removal_of};
ghost use Rattle.merge_groups.specs.Single.{AreLinesApart, IsSingle, addition_of, groups_of};

use crate::binding::{Beside, binds_are, binds_of};
use crate::change::Change;
use crate::flags::enabled_of;
use crate::lines::those;
use crate::named::{package_is_named, packages_are_named};
use crate::order::{Lined, in_text_order};
use crate::part::Part;
use build_pool::{Binds, Order};
use choice_tree::{Choice, Universe};
use pkg_state::Pkg;
use plan_text::{Group, Plan, Removal, one_plan};
use std::alloc::{AllocError, Global};

fn removal_of(pkg: &Pkg) -> Result<Removal, AllocError>
    ensures is { IfOk result (λ removal. removal ≡ removal_of pkg.now) }
    ensures form { IfOk result IsRemoval }
{
    package_is_named(pkg);
    let id = pkg.facts.id.try_clone()?;
    let slot = pkg.facts.slot.try_clone()?;
    Ok(Removal { id, slot })
}

pub(crate) fn removals_of(alloc: Global, lined: &[Lined<'_>]) -> Result<Vec<Removal>, AllocError>
    ensures are { IfOk result (λ v. v.items ≡
        map removal_of (map (λ l. l.pkg.now) lined.now)) }
    ensures form { IfOk result (λ v. AllByRecursion IsRemoval v.items) }
{
    let mut removals = Vec::with_capacity(alloc, lined.len())?;
    for one in lined {
        removals.push(removal_of(one.pkg)?)?;
    }
    Ok(removals)
}

fn addition_of(alloc: Global, beside: &Beside<'_>, pkg: &Pkg) -> Result<Order, AllocError>
    ensures is { IfOk result (λ addition. addition ≡
        addition_of (map (λ p. p.now) beside.now.packages.now) pkg.now) }
    ensures form { IfOk result (λ addition. IsAddition addition) }
{
    package_is_named(pkg);
    let id = pkg.facts.id.try_clone()?;
    let slot = pkg.facts.slot.try_clone()?;
    let subslot = pkg.facts.subslot.try_clone()?;
    let enabled = enabled_of(alloc, pkg)?;
    let binds = binds_of(alloc, beside, pkg)?;
    binds_are(&binds);
    Ok(Order {
        id,
        slot,
        subslot,
        enabled,
        binds: Binds::new(binds),
    })
}

fn additions_of(
    alloc: Global,
    beside: &Beside<'_>,
    lined: &[Lined<'_>],
) -> Result<Vec<Order>, AllocError>
    ensures are { IfOk result (λ v. v.items ≡
        map (addition_of (map (λ p. p.now) beside.now.packages.now))
        (map (λ l. l.pkg.now) lined.now)) }
    ensures form { IfOk result (λ v. AllByRecursion IsAddition v.items) }
{
    let mut additions = Vec::with_capacity(alloc, lined.len())?;
    for one in lined {
        additions.push(addition_of(alloc, beside, one.pkg)?)?;
    }
    Ok(additions)
}

/// The one group of these changes, or none where there are none.
pub(crate) fn groups_of(
    alloc: Global,
    removals: Vec<Removal>,
    additions: Vec<Order>,
) -> Result<Vec<Group>, AllocError>
    ensures { IfOk result (λ v. map group_value v.items ≡
        groups_of removals.items additions.items) }
{
    let mut groups = Vec::new(alloc);
    if removals.is_empty() && additions.is_empty() {
        return Ok(groups);
    }
    groups.push(Group {
        after: Vec::new(alloc),
        removals,
        additions,
    })?;
    Ok(groups)
}

/// What is asked of each line, in the order of the text of a plan.
fn sorted<'a>(
    alloc: Global,
    universe: &'a Universe,
    choice: &Choice,
    part: Part,
    change: Change,
) -> Result<Vec<Lined<'a>>, AllocError>
    requires { AreLinesApart (universe_of universe.now) }
    ensures { IfOk result (λ v. AreInTextOrder change
        (those part (universe_of universe.now) choice.now) (map (λ l. l.pkg.now) v.items)) }
{
    one_plan();
    let all = those(alloc, part, universe, choice)?;
    packages_are_named(&all);
    in_text_order(alloc, change, &all)
}

/// The plan in which all that a choice changes is one group; it has none where nothing changes.
pub fn single_plan(alloc: Global, universe: &Universe, choice: &Choice) -> Result<Plan, AllocError>
    requires { AreLinesApart (universe_of universe.now) }
    ensures plan { IfOk result (λ plan.
        IsSingle (universe_of universe.now) choice.now (plan_value plan)) }
    ensures form { IfOk result (λ plan. IsPlan (plan_value plan)) }
{
    let going = sorted(alloc, universe, choice, Part::Going, Change::Removal)?;
    let coming = sorted(alloc, universe, choice, Part::Coming, Change::Addition)?;
    let standing = those(alloc, Part::Standing, universe, choice)?;
    let beside = Beside::new(alloc, &standing)?;
    let removals = removals_of(alloc, &going)?;
    let additions = additions_of(alloc, &beside, &coming)?;
    let groups = groups_of(alloc, removals, additions)?;
    Ok(Plan { groups })
}
