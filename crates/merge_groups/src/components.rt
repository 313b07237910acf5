ghost use Rattle.std.specs.Prelude.{IfErr, IfOk, length, map};
ghost use Rattle.merge_edges.specs.Views.{change_of};
ghost use Rattle.merge_graph.specs.Edges.{AreBetween};
ghost use Rattle.merge_graph.specs.Numbering.{HasNoBuildInside, IsBuildCycle, IsNumbering};
ghost use Rattle.merge_groups.specs.Arranged.{AreNumbered, HaveNoPlan};

use crate::arranged::NotArranged;
use crate::sides::named_at;
use basics::MOST_GROUPS;
use merge_edges::Change;
use merge_graph::{Edge, Numbering, number};
use std::alloc::{AllocError, Global};

/// The number of the component of each change, and how many components there are.
#[derive(Drop)]
pub(crate) struct Components {
    pub(crate) numbers: Vec<usize>,
    pub(crate) count: usize,
}

/// The refusal of a cycle of builds.
fn of_cycle(
    alloc: Global,
    changes: &[Change<'_>],
    edges: &[Edge],
    cycle: &[usize],
) -> Result<NotArranged, AllocError>
    requires { IsBuildCycle (length (map change_of changes.now)) edges.now cycle.now }
    ensures { IfOk result (HaveNoPlan (map change_of changes.now) edges.now) }
{
    let packages = named_at(alloc, changes, cycle)?;
    Ok(NotArranged::BuildCycle { packages })
}

fn counted(
    changes: &[Change<'_>],
    edges: &[Edge],
    numbers: Vec<usize>,
    count: usize,
) -> Result<Components, NotArranged>
    requires builds { HasNoBuildInside edges.now }
    requires numbering { IsNumbering (length (map change_of changes.now)) edges.now count
        numbers.items }
    ensures numbered { IfOk result (λ k. AreNumbered (length (map change_of changes.now)) edges.now
        k.numbers.items k.count) }
    ensures fault { IfErr result (HaveNoPlan (map change_of changes.now) edges.now) }
{
    if count > MOST_GROUPS as usize {
        return Err(NotArranged::Limit);
    }
    Ok(Components { numbers, count })
}

/// The components of changes with these edges.
pub(crate) fn number_changes(
    alloc: Global,
    changes: &[Change<'_>],
    edges: &[Edge],
) -> Result<Components, NotArranged>
    requires { AreBetween (length (map change_of changes.now)) edges.now }
    ensures numbered { IfOk result (λ k. AreNumbered (length (map change_of changes.now)) edges.now
        k.numbers.items k.count) }
    ensures fault { IfErr result (HaveNoPlan (map change_of changes.now) edges.now) }
{
    match number(alloc, changes.len(), edges)? {
        Numbering::BuildCycle(cycle) => Err(of_cycle(alloc, changes, edges, &cycle)?),
        Numbering::Numbers { numbers, count } => counted(changes, edges, numbers, count),
    }
}
