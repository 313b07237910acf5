ghost use Rattle.std.specs.Prelude.{◌≡◌, IfOk};
ghost use Rattle.std.specs.List.{list_all};
ghost use Rattle.merge_graph.specs.Answer.{IsAnswer};
ghost use Rattle.merge_graph.specs.Edges.{AreBetween, is_between};

use crate::certify::certified;
use crate::cycle::first_inside;
use crate::edge::Edge;
use crate::places::row;
use crate::slots::number_at;
use std::alloc::{AllocError, Global};

/// What becomes of the nodes of a graph: numbers of their components, or a component that has an
/// edge to build on inside.
#[derive(Debug, Drop)]
pub enum Numbering {
    /// The nodes of the first such component, rising.
    BuildCycle(Vec<usize>),
    /// The number of each node's component, and how many components there are.
    Numbers { numbers: Vec<usize>, count: usize },
}

/// Numbers the components of so many nodes with these edges.
pub fn number(alloc: Global, nodes: usize, edges: &[Edge]) -> Result<Numbering, AllocError>
    requires { AreBetween nodes edges.now }
    ensures { IfOk result (IsAnswer nodes edges.now) }
{
    let guess = certified(alloc, nodes, edges)?;
    match first_inside(&guess.numbers, &guess.firsts, edges) {
        Some(first) => {
            let cycle = row(alloc, &guess.numbers, number_at(&guess.numbers, first))?;
            Ok(Numbering::BuildCycle(cycle))
        }
        None => {
            let count = guess.firsts.len();
            Ok(Numbering::Numbers {
                numbers: guess.numbers,
                count,
            })
        }
    }
}

/// Whether all edges are between so many nodes.
pub fn are_between(nodes: usize, edges: &[Edge]) -> bool
    ensures { result ≡ list_all (is_between nodes) edges.now }
{
    for edge in edges {
        if !is_between(nodes, edge) {
            return false;
        }
    }
    true
}

fn is_between(nodes: usize, edge: &Edge) -> bool
    ensures { result ≡ is_between nodes edge.now }
{
    edge.from < nodes && edge.to < nodes
}
