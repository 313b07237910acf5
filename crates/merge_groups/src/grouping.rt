ghost use Rattle.std.specs.Prelude.{◌≡◌, ◌<◌, ℕ, IfOk, [], get_or, length, map};
ghost use Rattle.merge_edges.specs.Views.{change_of};
ghost use Rattle.merge_graph.specs.Rows.{AreRising};
ghost use Rattle.merge_groups.specs.Apart.{AreChangesApart};
ghost use Rattle.merge_groups.specs.Grouped.{Makes, before, removal_for, those_at};
ghost use Rattle.merge_groups.specs.Order.{AreInTextOrder};
ghost use Rattle.merge_groups.specs.Rows.{AreGroups, AreWaiting};

use crate::change::Change;
use crate::named::packages_are_named;
use crate::order::{Lined, in_text_order};
use crate::sides::those_at;
use merge_edges::Change as LineChange;
use pkg_state::{Pkg, copy_package};
use plan_lives::{Group, Removal};
use plan_text::one_plan;
use std::alloc::{AllocError, Global};

/// What goes with the changes at these places, or what comes, in the order of the text of a plan.
fn sorted_at<'a>(
    alloc: Global,
    side: Change,
    changes: &[LineChange<'a>],
    places: &[usize],
) -> Result<Vec<Lined<'a>>, AllocError>
    requires apart { AreChangesApart (map change_of changes.now) }
    requires rising { AreRising places.now }
    ensures { IfOk result (λ v. AreInTextOrder side
        (those_at side (map change_of changes.now) places.now) (map (λ l. l.pkg.now) v.items)) }
{
    one_plan();
    let all = those_at(alloc, side, changes, places)?;
    packages_are_named(&all);
    in_text_order(alloc, side, &all)
}

fn removals_for(alloc: Global, lined: &[Lined<'_>]) -> Result<Vec<Removal>, AllocError>
    ensures { IfOk result (λ v. v.items ≡
        map removal_for (map (λ l. l.pkg.now) lined.now)) }
{
    let mut removals = Vec::with_capacity(alloc, lined.len())?;
    for one in lined {
        removals.push(removal_for(one.pkg)?)?;
    }
    Ok(removals)
}

fn removal_for(pkg: &Pkg) -> Result<Removal, AllocError>
    ensures { IfOk result (λ removal. removal ≡ removal_for pkg.now) }
{
    let id = pkg.facts.id.try_clone()?;
    let slot = pkg.facts.slot.try_clone()?;
    Ok(Removal { id, slot })
}

fn copies_of(alloc: Global, lined: &[Lined<'_>]) -> Result<Vec<Pkg>, AllocError>
    ensures { IfOk result (λ v. v.items ≡ map (λ l. l.pkg.now) lined.now) }
{
    let mut copies = Vec::with_capacity(alloc, lined.len())?;
    for one in lined {
        copies.push(copy_package(one.pkg)?)?;
    }
    Ok(copies)
}

/// The group that makes the changes at these places, behind the groups that it is to wait for.
fn group_of(
    alloc: Global,
    changes: &[LineChange<'_>],
    places: &[usize],
    after: Vec<usize>,
) -> Result<Group, AllocError>
    requires apart { AreChangesApart (map change_of changes.now) }
    requires rising { AreRising places.now }
    ensures makes { IfOk result (Makes (map change_of changes.now) places.now) }
    ensures after { IfOk result (λ g. g.after ≡ after.items) }
{
    let going = sorted_at(alloc, Change::Removal, changes, places)?;
    let coming = sorted_at(alloc, Change::Addition, changes, places)?;
    let removals = removals_for(alloc, &going)?;
    let additions = copies_of(alloc, &coming)?;
    Ok(Group {
        after,
        removals,
        additions,
    })
}

fn row_at(rows: &[Vec<usize>], place: usize) -> &[usize]
    ensures { result.now ≡ get_or (map (λ r. r.items) rows.now) place [] }
{
    match rows.get(place) {
        Some(row) => row.as_slice(),
        None => &[],
    }
}

fn copied(alloc: Global, numbers: &[usize]) -> Result<Vec<usize>, AllocError>
    ensures { IfOk result (λ v. v.items ≡ numbers.now) }
{
    let mut copy = Vec::with_capacity(alloc, numbers.len())?;
    for number in numbers {
        copy.push(*number)?;
    }
    Ok(copy)
}

/// The groups that make the changes at the places of the rows, each behind those that the row at its
/// place of the others has.
pub(crate) fn groups_of(
    alloc: Global,
    changes: &[LineChange<'_>],
    rows: &[Vec<usize>],
    afters: &[Vec<usize>],
) -> Result<Vec<Group>, AllocError>
    requires apart { AreChangesApart (map change_of changes.now) }
    requires rising { (k : ℕ) → k < length rows.now →
        AreRising (get_or (map (λ r. r.items) rows.now) k []) }
    ensures { IfOk result (λ v. AreGroups (map change_of changes.now)
        (map (λ r. r.items) rows.now) (map (λ r. r.items) afters.now) (length rows.now) v.items) }
{
    let mut groups = Vec::new(alloc);
    for k in 0..rows.len() {
        let after = copied(alloc, row_at(afters, k))?;
        groups.push(group_of(alloc, changes, row_at(rows, k), after)?)?;
    }
    Ok(groups)
}

/// The place before, if there is one.
fn before(alloc: Global, place: usize) -> Result<Vec<usize>, AllocError>
    ensures { IfOk result (λ v. v.items ≡ before place) }
{
    let mut places = Vec::new(alloc);
    if place > 0 {
        places.push(place - 1)?;
    }
    Ok(places)
}

/// So many groups, of which each waits for the one before it.
pub(crate) fn befores(alloc: Global, count: usize) -> Result<Vec<Vec<usize>>, AllocError>
    ensures { IfOk result (λ v. AreWaiting count (map (λ r. r.items) v.items)) }
{
    let mut all = Vec::new(alloc);
    for place in 0..count {
        all.push(before(alloc, place)?)?;
    }
    Ok(all)
}
