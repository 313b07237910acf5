ghost use Rattle.std.specs.Prelude.{◌≡◌, ◌++◌, IfOk, OnOk};
ghost use Rattle.std.specs.List.{flat_map};
ghost use Rattle.choice_tree.specs.Seen.{places_of};
ghost use Rattle.merge_edges.specs.Found.{joined, joins, node_at, nodes_from};

use crate::places::is_changed;
use choice_tree::Place;
use merge_graph::Edge;
use std::alloc::{AllocError, Global};

/// The place of each line among the changes, if it changes.
pub(crate) fn nodes_of(
    alloc: Global,
    places: &[Place<'_>],
) -> Result<Vec<Option<usize>>, AllocError>
    ensures { IfOk result (λ v. v.items ≡ nodes_from 0 (places_of places.now)) }
{
    let mut nodes = Vec::with_capacity(alloc, places.len())?;
    let mut count = 0;
    for place in places {
        if is_changed(place) {
            nodes.push(Some(count))?;
            count += 1;
        } else {
            nodes.push(None)?;
        }
    }
    Ok(nodes)
}

fn node_at(nodes: &[Option<usize>], line: usize) -> Option<usize>
    ensures { result ≡ node_at nodes.now line }
{
    if line < nodes.len() {
        return nodes[line];
    }
    None
}

fn push_joined(
    builds: bool,
    from: Option<usize>,
    to: Option<usize>,
    out: &mut Vec<Edge>,
) -> Result<(), AllocError>
    ensures { OnOk result (out.new.items ≡ out.old.items ++ joins builds from to) }
{
    if let (Some(from), Some(to)) = (from, to) {
        out.push(Edge { from, to, builds })?;
    }
    Ok(())
}

fn push_edge(nodes: &[Option<usize>], edge: &Edge, out: &mut Vec<Edge>) -> Result<(), AllocError>
    ensures { OnOk result (out.new.items ≡ out.old.items ++ joined nodes.now edge.now) }
{
    if edge.builds || edge.from != edge.to {
        let (from, to) = (node_at(nodes, edge.from), node_at(nodes, edge.to));
        push_joined(edge.builds, from, to, out)?;
    }
    Ok(())
}

/// The edges between the changes of their lines, of those edges whose lines both change.
pub(crate) fn join_all(
    alloc: Global,
    nodes: &[Option<usize>],
    edges: &[Edge],
) -> Result<Vec<Edge>, AllocError>
    ensures { IfOk result (λ v. v.items ≡ flat_map (joined nodes.now) edges.now) }
{
    let mut out = Vec::new(alloc);
    for edge in edges {
        push_edge(nodes, edge, &mut out)?;
    }
    Ok(out)
}
