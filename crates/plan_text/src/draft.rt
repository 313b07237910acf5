ghost use Rattle.std.specs.Prelude.{◌≡◌, ◌<◌, IfOk, [], length, true};
ghost use Rattle.plan_text.specs.Drafts.{FitsPlace, FitsGroup, GrowsBy, current_group, draft_count};
ghost use Rattle.plan_text.specs.Drafts.{whole_groups};
ghost use Rattle.plan_text.specs.Lines.{IsLine, line_of};
ghost use Rattle.plan_text.specs.Plans.{group_value};
ghost use Rattle.plan_text.specs.Progress.{Grows, is_inner};
ghost use Rattle.plan_text.specs.Reading.{line_value};
ghost use Rattle.plan_text.specs.Standing.{follows, next, standing_value};
ghost use Rattle.plan_text.specs.Texts.{add_line, remove_line};
ghost use Rattle.plan_text.specs.declared.kind.Kind.TheVariants as kinds;
ghost use Rattle.plan_text.specs.declared.standing.Place.TheVariants as places;

use crate::line::Line;
use crate::plan::{Group, Removal};
use crate::standing::Standing;
use build_pool::Order;
use dep_atom::Bind;
use std::alloc::{AllocError, Global};

/// The groups of the lines that have been read.
#[derive(Drop)]
pub(crate) struct Draft {
    pub(crate) groups: Vec<Group>,
    /// The group whose lines are being read.
    pub(crate) current: Option<Group>,
}

/// What is held, and what the line says, which may follow.
pub(crate) fn with_line(
    alloc: Global,
    standing: &Standing<'_>,
    draft: Draft,
    line: Line,
) -> Result<Draft, AllocError>
    requires fits { FitsPlace standing.now.place (current_group draft) }
    requires count { standing.now.groups ≡ draft_count draft }
    requires form { IsLine (line_value line) }
    requires follows { follows (standing_value standing.now) (line_value line) ≡ true }
    ensures { IfOk result (λ d. Grows (standing_value standing.now) (line_value line)
        (whole_groups draft) (current_group draft) (whole_groups d) (current_group d)) }
{
    match line {
        Line::Plan => Ok(draft),
        Line::Group(number) => with_group(alloc, standing, draft, number),
        Line::After(_) | Line::Remove(_) | Line::Add(_) | Line::Bind(_) => {
            with_inner(standing, draft, line)
        }
    }
}

fn with_group(
    alloc: Global,
    standing: &Standing<'_>,
    draft: Draft,
    number: u32,
) -> Result<Draft, AllocError>
    requires count { standing.now.groups ≡ draft_count draft }
    requires follows { follows (standing_value standing.now) (line_of kinds.Group number) ≡ true }
    ensures { IfOk result (λ d. Grows (standing_value standing.now) (line_of kinds.Group number)
        (whole_groups draft) (current_group draft) (whole_groups d) (current_group d)) }
{
    let Draft {
        mut groups,
        current,
    } = draft;
    if let Some(group) = current {
        groups.push(group)?;
    }
    Ok(Draft {
        groups,
        current: Some(bare(alloc)),
    })
}

fn with_inner(standing: &Standing<'_>, draft: Draft, line: Line) -> Result<Draft, AllocError>
    requires fits { FitsPlace standing.now.place (current_group draft) }
    requires count { standing.now.groups ≡ draft_count draft }
    requires form { IsLine (line_value line) }
    requires inner { is_inner (line_value line).kind ≡ true }
    requires follows { follows (standing_value standing.now) (line_value line) ≡ true }
    ensures { IfOk result (λ d. Grows (standing_value standing.now) (line_value line)
        (whole_groups draft) (current_group draft) (whole_groups d) (current_group d)) }
{
    let Draft { groups, current } = draft;
    let Some(group) = current else { unreachable!() };
    let group = grown(standing, group, line)?;
    Ok(Draft {
        groups,
        current: Some(group),
    })
}

fn grown(standing: &Standing<'_>, group: Group, line: Line) -> Result<Group, AllocError>
    requires fits { FitsGroup standing.now.place (group_value group) }
    requires form { IsLine (line_value line) }
    requires inner { is_inner (line_value line).kind ≡ true }
    requires follows { follows (standing_value standing.now) (line_value line) ≡ true }
    ensures lines { IfOk result (λ g. GrowsBy (group_value group) (group_value g)
        (line_value line)) }
    ensures fits { IfOk result (λ g. FitsGroup
        (next (standing_value standing.now) (line_value line)).place (group_value g)) }
{
    match line {
        Line::Plan | Line::Group(_) => unreachable!(),
        Line::After(after) => Ok(with_after(group, after)),
        Line::Remove(removal) => with_removal(group, removal),
        Line::Add(addition) => with_addition(group, addition),
        Line::Bind(bind) => with_bind(group, bind),
    }
}

/// A group of which only the first line has been read.
fn bare(alloc: Global) -> Group
    ensures { FitsGroup places.Group (group_value result) }
{
    Group {
        after: Vec::new(alloc),
        removals: Vec::new(alloc),
        additions: Vec::new(alloc),
    }
}

fn with_after(mut group: Group, after: Vec<u32>) -> Group
    requires bare { FitsGroup places.Group (group_value group) }
    requires some { 0 < length after.items }
    ensures lines { GrowsBy (group_value group) (group_value result)
        (line_of kinds.After after.items) }
    ensures fits { FitsGroup places.After (group_value result) }
{
    group.after = after;
    group
}

fn with_removal(mut group: Group, removal: Removal) -> Result<Group, AllocError>
    requires { (group_value group).additions ≡ [] }
    ensures lines { IfOk result (λ g. GrowsBy (group_value group) (group_value g)
        (remove_line removal)) }
    ensures fits { IfOk result (λ g. FitsGroup places.Removals (group_value g)) }
{
    group.removals.push(removal)?;
    Ok(group)
}

fn with_addition(mut group: Group, addition: Order) -> Result<Group, AllocError>
    requires { addition.binds ≡ [] }
    ensures lines { IfOk result (λ g. GrowsBy (group_value group) (group_value g)
        (line_of kinds.Add addition)) }
    ensures fits { IfOk result (λ g. FitsGroup places.Additions (group_value g)) }
{
    group.additions.push(addition)?;
    Ok(group)
}

fn with_bind(mut group: Group, bind: Bind) -> Result<Group, AllocError>
    requires { FitsGroup places.Additions (group_value group) }
    ensures lines { IfOk result (λ g. GrowsBy (group_value group) (group_value g)
        (line_of kinds.Bind bind)) }
    ensures fits { IfOk result (λ g. FitsGroup places.Additions (group_value g)) }
{
    let Some(mut last) = group.additions.pop() else {
        unreachable!()
    };
    last.binds.push(bind)?;
    group.additions.push(last)?;
    Ok(group)
}
