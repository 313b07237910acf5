ghost use Rattle.std.specs.Prelude.{◌≡◌, ◌↔◌, ◌++◌, ◌<◌, IfOk, IsTrue, MatchOption, None, OnOk};
ghost use Rattle.std.specs.Prelude.{length, map};
ghost use Rattle.std.specs.Option.{option_map};
ghost use Rattle.plan_law.specs.Plans.{Reaches};
ghost use Rattle.plan_lives.specs.IsReach.{IsReach};
ghost use Rattle.plan_rules.specs.Changes.{AreByLine, change_of, changes_from, changes_of};
ghost use Rattle.plan_rules.specs.Changes.{earlier, pair_of};
ghost use Rattle.plan_rules.specs.Pairs.{pair_cmp};
ghost use Rattle.plan_rules.specs.Refusals.{Says};
ghost use Rattle.plan_rules.specs.Rules.{IsFirstUnordered, line_rule};

use crate::change::{Change, FoundPair};
use crate::refusal::PlanRefused;
use pkg_state::{ByText, LineName};
use plan_lives::{Group, Reach};
use pms_names::{Name, SlotName};
use std::alloc::{AllocError, Global};
use std::cmp::Ordering;
use std::collections::BTreeMap;

fn change<'a>(
    alloc: Global,
    name: &'a Name,
    slot: &'a SlotName,
    group: usize,
) -> Result<Change<'a>, AllocError>
    ensures name { IfOk result (λ c. c.name.now ≡ name.now) }
    ensures slot { IfOk result (λ c. c.slot.now ≡ slot.now) }
    ensures group { IfOk result (λ c. c.group ≡ group) }
{
    let line = LineName::new(alloc, name, slot)?;
    Ok(Change {
        name,
        slot,
        line,
        group,
    })
}

fn add_changes<'a>(
    alloc: Global,
    changes: &mut Vec<Change<'a>>,
    group: &'a Group,
    g: usize,
) -> Result<(), AllocError>
    ensures { OnOk result (map change_of changes.new.items ≡
        map change_of changes.old.items ++ changes_of g group.now) }
{
    for removal in &group.removals {
        changes.push(change(alloc, &removal.id.name, &removal.slot, g)?)?;
    }
    for pkg in &group.additions {
        changes.push(change(alloc, &pkg.facts.id.name, &pkg.facts.slot, g)?)?;
    }
    Ok(())
}

fn changes_of<'a>(alloc: Global, groups: &'a [Group]) -> Result<Vec<Change<'a>>, AllocError>
    ensures { IfOk result (λ changes. map change_of changes.items ≡ changes_from 0 groups.now) }
{
    let mut changes = Vec::new(alloc);
    for (g, group) in groups.iter().enumerate() {
        add_changes(alloc, &mut changes, group, g)?;
    }
    Ok(changes)
}

/// The groups that change each line.
fn by_line<'c>(alloc: Global, changes: &'c [Change<'_>]) -> Result<ByText<'c, usize>, AllocError>
    ensures { IfOk result (λ found. AreByLine (map change_of changes.now) found.lists) }
{
    let mut found = ByText::new(alloc);
    for change in changes {
        found.add(alloc, change.line.text(), change.group)?;
    }
    Ok(found)
}

fn compare(a: &FoundPair<'_, '_>, b: &FoundPair<'_, '_>) -> Ordering
    ensures { result ≡ pair_cmp (pair_of a.now) (pair_of b.now) }
{
    let one = a.change;
    let other = b.change;
    let line = one.line.cmp(&other.line);
    line.then(one.group.cmp(&other.group))
        .then(a.higher.cmp(&b.higher))
}

fn earlier<'c, 'a>(known: Option<FoundPair<'c, 'a>>, new: FoundPair<'c, 'a>) -> FoundPair<'c, 'a>
    ensures { pair_of result ≡ earlier (option_map pair_of known.entry) (pair_of new.entry) }
{
    if let Some(known) = known {
        if !compare(&new, &known).is_lt() {
            return known;
        }
    }
    new
}

fn are_apart(reach: &Reach<'_>, lower: usize, higher: usize) -> bool
    requires is { IsReach reach.now }
    requires lower { lower < length reach.now.groups.now }
    requires higher { higher < length reach.now.groups.now }
    ensures { IsTrue result ↔ ((lower < higher) × (¬ Reaches reach.now.groups.now higher lower)) }
{
    lower < higher && !reach.reaches(lower, higher)
}

/// Whether each change of a line reaches the last one before it, which puts all of them in order,
/// since groups wait for earlier ones alone.
fn are_in_order(
    alloc: Global,
    reach: &Reach<'_>,
    changes: &[Change<'_>],
) -> Result<bool, AllocError>
    requires is { IsReach reach.now }
    requires changes { map change_of changes.now ≡ changes_from 0 reach.now.groups.now }
    ensures { IfOk result (λ yes. IsTrue yes → line_rule reach.now.groups.now None) }
{
    let mut last: BTreeMap<&str, usize> = BTreeMap::new(alloc);
    for change in changes {
        if let Some(before) = last.insert(change.line.text(), change.group)? {
            if !reach.reaches(before, change.group) {
                return Ok(false);
            }
        }
    }
    Ok(true)
}

/// The first two groups that change one line, and of which neither reaches the other.
fn first_apart<'c, 'a>(
    reach: &Reach<'_>,
    changes: &'c [Change<'a>],
    by_line: &ByText<'c, usize>,
) -> Option<FoundPair<'c, 'a>>
    requires is { IsReach reach.now }
    requires changes { map change_of changes.now ≡ changes_from 0 reach.now.groups.now }
    requires by_line { AreByLine (map change_of changes.now) by_line.now.lists }
    ensures { MatchOption result (line_rule reach.now.groups.now None)
        (λ p. IsFirstUnordered reach.now.groups.now (pair_of p)) }
{
    let mut first = None;
    for change in changes {
        for higher in by_line.get(change.line.text()) {
            if are_apart(reach, change.group, *higher) {
                let pair = FoundPair {
                    change,
                    higher: *higher,
                };
                first = Some(earlier(first, pair));
            }
        }
    }
    first
}

/// Whether of two groups that change one line one reaches the other.
pub fn judge_lines(alloc: Global, reach: &Reach<'_>) -> Result<(), PlanRefused>
    requires { IsReach reach.now }
    ensures { Says (line_rule reach.now.groups.now) result }
{
    let changes = changes_of(alloc, reach.groups)?;
    if are_in_order(alloc, reach, &changes)? {
        return Ok(());
    }
    let by_line = by_line(alloc, &changes)?;
    if let Some(pair) = first_apart(reach, &changes, &by_line) {
        let change = pair.change;
        let line = LineName::new(alloc, change.name, change.slot)?;
        return Err(PlanRefused::Line {
            line,
            group: change.group + 1,
            other: pair.higher + 1,
        });
    }
    Ok(())
}
