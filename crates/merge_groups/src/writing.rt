ghost use Rattle.std.specs.Prelude.{◌≡◌, ◌+◌, ◌<◌, ◌≤◌, ◌^◌, ℕ, IfOk, length, map};
ghost use Rattle.std.specs.List.{AllByRecursion, AllZip};
ghost use Rattle.basics.specs.Limits.{most_groups};
ghost use Rattle.basics.specs.Members.{Has};
ghost use Rattle.plan_lives.specs.Form.{IsPlanInForm};
ghost use Rattle.plan_lives.specs.Index.{IsIndex, plan_of, start_of};
ghost use Rattle.plan_text.specs.Plans.{group_value, plan_value};
ghost use Rattle.plan_text.specs.Texts.{IsAddition};
ghost use Rattle.plan_text.specs.Words.{IsRemoval};
ghost use Rattle.merge_groups.specs.Formed.{AreWords};
ghost use Rattle.merge_groups.specs.Written.{AreTexts, IsGroupText, Says, removal_in};

use crate::beside::binds_beside;
use crate::binding::binds_are;
use crate::flags::enabled_of;
use crate::named::package_is_named;
use build_pool::{Binds, Order};
use pkg_state::Pkg;
use plan_lives as lives;
use plan_lives::{Index, Reach, index_of, lines_of, lives_of};
use plan_text::{Group, Plan, Removal};
use std::alloc::{AllocError, Global};
use vdb_paths::id_is_one;

fn removal_in(removal: &lives::Removal) -> Result<Removal, AllocError>
    ensures is { IfOk result (λ r. r ≡ removal_in removal.now) }
    ensures form { IfOk result IsRemoval }
{
    id_is_one(&removal.id);
    let id = removal.id.try_clone()?;
    let slot = removal.slot.try_clone()?;
    let _named = slot.text();
    Ok(Removal { id, slot })
}

fn removals_in(alloc: Global, removals: &[lives::Removal]) -> Result<Vec<Removal>, AllocError>
    ensures are { IfOk result (λ v. v.items ≡ map removal_in removals.now) }
    ensures form { IfOk result (λ v. AllByRecursion IsRemoval v.items) }
{
    let mut all = Vec::with_capacity(alloc, removals.len())?;
    for removal in removals {
        all.push(removal_in(removal)?)?;
    }
    Ok(all)
}

/// What the text says of a package that comes with the group.
fn addition_in(alloc: Global, index: &Index<'_>, g: usize, pkg: &Pkg) -> Result<Order, AllocError>
    requires is { IsIndex index.now }
    requires there { g < length (plan_of index.now) }
    ensures says { IfOk result (Says (plan_of index.now) (start_of index.now) g pkg.now) }
    ensures form { IfOk result IsAddition }
{
    package_is_named(pkg);
    let id = pkg.facts.id.try_clone()?;
    let slot = pkg.facts.slot.try_clone()?;
    let subslot = pkg.facts.subslot.try_clone()?;
    let enabled = enabled_of(alloc, pkg)?;
    let binds = binds_beside(alloc, index, g, pkg)?;
    binds_are(&binds);
    Ok(Order {
        id,
        slot,
        subslot,
        enabled,
        binds: Binds::new(binds),
    })
}

fn additions_in(
    alloc: Global,
    index: &Index<'_>,
    g: usize,
    pkgs: &[Pkg],
) -> Result<Vec<Order>, AllocError>
    requires is { IsIndex index.now }
    requires there { g < length (plan_of index.now) }
    ensures say { IfOk result (λ v.
        AllZip (Says (plan_of index.now) (start_of index.now) g) pkgs.now v.items) }
    ensures form { IfOk result (λ v. AllByRecursion IsAddition v.items) }
{
    let mut all = Vec::with_capacity(alloc, pkgs.len())?;
    for pkg in pkgs {
        all.push(addition_in(alloc, index, g, pkg)?)?;
    }
    Ok(all)
}

/// The numbers of groups at these places.
fn numbers_of(alloc: Global, places: &[usize]) -> Result<Vec<u32>, AllocError>
    requires { (h : ℕ) → Has places.now h → h < most_groups }
    ensures { IfOk result (λ v. v.items ≡ map (λ h. h + 1) places.now) }
{
    let mut numbers = Vec::with_capacity(alloc, places.len())?;
    for place in places {
        numbers.push(*place as u32 + 1)?;
    }
    Ok(numbers)
}

/// The text of the group at a place.
fn group_in(
    alloc: Global,
    index: &Index<'_>,
    g: usize,
    group: &lives::Group,
) -> Result<Group, AllocError>
    requires is { IsIndex index.now }
    requires there { g < length (plan_of index.now) }
    requires few { (h : ℕ) → Has group.now.after h → h < most_groups }
    ensures is { IfOk result (λ t. IsGroupText (plan_of index.now) (start_of index.now) g group.now
        (group_value t)) }
    ensures form { IfOk result (λ t. AreWords (group_value t)) }
{
    let after = numbers_of(alloc, &group.after)?;
    let removals = removals_in(alloc, &group.removals)?;
    let additions = additions_in(alloc, index, g, &group.additions)?;
    Ok(Group {
        after,
        removals,
        additions,
    })
}

fn groups_in(alloc: Global, index: &Index<'_>, groups: &[lives::Group]) -> Result<Plan, AllocError>
    requires is { IsIndex index.now }
    requires groups { groups.now ≡ plan_of index.now }
    requires form { IsPlanInForm groups.now }
    ensures are { IfOk result (λ p.
        AreTexts (plan_of index.now) (start_of index.now) (plan_value p)) }
    ensures form { IfOk result (λ p. AllByRecursion AreWords (plan_value p)) }
{
    let mut texts = Vec::with_capacity(alloc, groups.len())?;
    for (g, group) in groups.iter().enumerate() {
        texts.push(group_in(alloc, index, g, group)?)?;
    }
    Ok(Plan { groups: texts })
}

/// The text of a plan over installed packages.
pub(crate) fn text_of(
    alloc: Global,
    installed: &[Pkg],
    plan: &lives::Plan,
) -> Result<Plan, AllocError>
    ensures are { IfOk result (λ p. AreTexts plan.now installed.now (plan_value p)) }
    ensures form { IfOk result (λ p. AllByRecursion AreWords (plan_value p)) }
{
    let groups = plan.groups();
    let reach = Reach::new(alloc, groups)?;
    let lives = lives_of(alloc, installed, groups)?;
    let lines = lines_of(alloc, &lives)?;
    let index = index_of(alloc, installed, &reach, &lives, &lines)?;
    groups_in(alloc, &index, groups)
}
