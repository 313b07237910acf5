ghost use Rattle.std.specs.Prelude.{◌≡◌, ◌↔◌, IsTrue, Some};
ghost use Rattle.merge_graph.specs.Certified.{IsFirstInside, smaller};

use crate::edge::Edge;
use crate::slots::number_at;

/// The smallest node of those components that have an edge to build on inside.
pub(crate) fn first_inside(numbers: &[usize], firsts: &[usize], edges: &[Edge]) -> Option<usize>
    ensures { IsFirstInside numbers.now firsts.now edges.now result }
{
    let mut best = None;
    for edge in edges {
        let number = number_at(numbers, edge.from);
        if is_inside(edge.builds, number, number_at(numbers, edge.to)) {
            best = smaller(best, number_at(firsts, number));
        }
    }
    best
}

fn is_inside(builds: bool, from: usize, to: usize) -> bool
    ensures { IsTrue result ↔ (IsTrue builds × (from ≡ to)) }
{
    builds && from == to
}

fn smaller(best: Option<usize>, node: usize) -> Option<usize>
    ensures { result ≡ Some (smaller best node) }
{
    match best {
        Some(other) => Some(other.min(node)),
        None => Some(node),
    }
}
