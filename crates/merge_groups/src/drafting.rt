ghost use Rattle.std.specs.Prelude.{◌≤◌, IfOk, length, map};
ghost use Rattle.basics.specs.Limits.{most_groups};
ghost use Rattle.merge_edges.specs.Views.{change_of};
ghost use Rattle.merge_graph.specs.Edges.{AreBetween};
ghost use Rattle.merge_graph.specs.Levels.{IsNumbered};
ghost use Rattle.merge_graph.specs.Numbering.{HasNoBuildInside, IsNumbering};
ghost use Rattle.merge_groups.specs.Apart.{AreChangesApart};
ghost use Rattle.merge_groups.specs.Grouped.{AreFine, AreLevel};

use crate::grouping::{befores, groups_of};
use merge_edges::Change;
use merge_graph::{Edge, after, level_rows, rows, waits_fall};
use plan_lives::Plan;
use std::alloc::{AllocError, Global};

/// A group for each component.
pub(crate) fn fine_groups(
    alloc: Global,
    changes: &[Change<'_>],
    edges: &[Edge],
    numbers: &[usize],
    count: usize,
) -> Result<Plan, AllocError>
    requires apart { AreChangesApart (map change_of changes.now) }
    requires numbered { IsNumbering (length (map change_of changes.now)) edges.now count
        numbers.now }
    requires few { count ≤ most_groups }
    ensures { IfOk result (AreFine (map change_of changes.now) edges.now numbers.now count) }
{
    waits_fall();
    let rows = rows(alloc, numbers, count)?;
    let afters = after(alloc, numbers, count, edges)?;
    let groups = groups_of(alloc, changes, &rows, &afters)?;
    match Plan::new(groups) {
        Some(plan) => Ok(plan),
        None => unreachable!(),
    }
}

/// A group for each level.
pub(crate) fn level_groups(
    alloc: Global,
    changes: &[Change<'_>],
    edges: &[Edge],
    numbers: &[usize],
    count: usize,
) -> Result<Plan, AllocError>
    requires apart { AreChangesApart (map change_of changes.now) }
    requires between { AreBetween (length (map change_of changes.now)) edges.now }
    requires builds { HasNoBuildInside edges.now }
    requires numbered { IsNumbering (length (map change_of changes.now)) edges.now count
        numbers.now }
    requires few { count ≤ most_groups }
    ensures { IfOk result (AreLevel (map change_of changes.now) edges.now numbers.now count) }
{
    let rows = level_rows(alloc, numbers, count, edges)?;
    let afters = befores(alloc, rows.len())?;
    let groups = groups_of(alloc, changes, &rows, &afters)?;
    match Plan::new(groups) {
        Some(plan) => Ok(plan),
        None => unreachable!(),
    }
}
