use crate::edge::Edge;
use crate::places::row_at;
use crate::slots::{is_marked, mark, number_at};
use std::alloc::{AllocError, Global};

/// Edges in an order in which all nodes of each component are reached from its smallest one, as far
/// as can be trusted: they are tried afterwards.
pub(crate) fn way_from_firsts(
    alloc: Global,
    numbers: &[usize],
    firsts: &[usize],
    edges: &[Edge],
    leaving: &[Vec<usize>],
) -> Result<Vec<usize>, AllocError> {
    let mut reached = vec![in alloc; false; numbers.len()]?;
    let mut nodes = Vec::new(alloc);
    let mut way = Vec::new(alloc);
    for first in firsts {
        mark(&mut reached, *first);
        nodes.push(*first)?;
    }
    for at in 0..usize::MAX {
        let node = match nodes.get(at) {
            Some(node) => *node,
            None => break,
        };
        for place in row_at(leaving, node) {
            if let Some(to) = next_node(numbers, edges, &reached, *place) {
                mark(&mut reached, to);
                nodes.push(to)?;
                way.push(*place)?;
            }
        }
    }
    Ok(way)
}

/// Where an edge goes inside a component, to a node that isn't reached yet.
fn next_node(numbers: &[usize], edges: &[Edge], reached: &[bool], place: usize) -> Option<usize> {
    let edge = edges.get(place)?;
    let inside = number_at(numbers, edge.from) == number_at(numbers, edge.to);
    if inside && !is_marked(reached, edge.to) {
        return Some(edge.to);
    }
    None
}
