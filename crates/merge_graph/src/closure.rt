ghost use Rattle.std.specs.Prelude.{◌≡◌, ◌==◌, ◌&&◌, ◌||◌, [], IfOk, false, get_or, map};
ghost use Rattle.merge_graph.specs.Closure.{IsClosure, IsRow, IsTable, in_one, reached};
ghost use Rattle.merge_graph.specs.Closure.{reached_with};
ghost use Rattle.merge_graph.specs.Edges.{AreBetween};

use crate::edge::Edge;
use crate::slots::is_marked;
use std::alloc::{AllocError, Global};

/// Of each node which nodes are reached from it: a table that is made anew for each edge.
pub(crate) fn closure(
    alloc: Global,
    nodes: usize,
    edges: &[Edge],
) -> Result<Vec<Vec<bool>>, AllocError>
    requires { AreBetween nodes edges.now }
    ensures { IfOk result (λ v. IsClosure nodes edges.now (map (λ r. r.items) v.items)) }
{
    let mut rows = apart(alloc, nodes)?;
    for edge in edges {
        rows = with_edge(alloc, nodes, &rows, edge.from, edge.to)?;
    }
    Ok(rows)
}

/// Whether two nodes are in one component.
pub(crate) fn in_one(rows: &[Vec<bool>], one: usize, other: usize) -> bool
    ensures { result ≡ in_one (map (λ r. r.items) rows.now) one other }
{
    let there = is_marked(marks_at(rows, one), other);
    let back = is_marked(marks_at(rows, other), one);
    there && back
}

fn marks_at(rows: &[Vec<bool>], node: usize) -> &[bool]
    ensures { result.now ≡ get_or (map (λ r. r.items) rows.now) node [] }
{
    match rows.get(node) {
        Some(row) => row.as_slice(),
        None => &[],
    }
}

fn apart(alloc: Global, nodes: usize) -> Result<Vec<Vec<bool>>, AllocError>
    ensures { IfOk result
        (λ v. IsTable nodes nodes (λ x y. x == y) (map (λ r. r.items) v.items)) }
{
    let mut rows = Vec::new(alloc);
    for node in 0..nodes {
        let row = alone(alloc, nodes, node)?;
        rows.push(row)?;
    }
    Ok(rows)
}

fn alone(alloc: Global, nodes: usize, node: usize) -> Result<Vec<bool>, AllocError>
    ensures { IfOk result (λ v. IsRow nodes (λ y. node == y) v.items) }
{
    let mut row = Vec::new(alloc);
    for other in 0..nodes {
        row.push(node == other)?;
    }
    Ok(row)
}

fn with_edge(
    alloc: Global,
    nodes: usize,
    rows: &[Vec<bool>],
    from: usize,
    to: usize,
) -> Result<Vec<Vec<bool>>, AllocError>
    ensures { IfOk result (λ v. IsTable nodes nodes
        (reached_with (map (λ r. r.items) rows.now) from to) (map (λ r. r.items) v.items)) }
{
    let mut more = Vec::new(alloc);
    for node in 0..nodes {
        let row = row_with(alloc, nodes, marks_at(rows, node), from, marks_at(rows, to))?;
        more.push(row)?;
    }
    Ok(more)
}

fn row_with(
    alloc: Global,
    nodes: usize,
    row: &[bool],
    from: usize,
    far: &[bool],
) -> Result<Vec<bool>, AllocError>
    ensures { IfOk result (λ v. IsRow nodes (λ y. get_or row.now y false
        || (get_or row.now from false && get_or far.now y false)) v.items) }
{
    let mut more = Vec::new(alloc);
    for other in 0..nodes {
        more.push(is_with(row, from, far, other))?;
    }
    Ok(more)
}

fn is_with(row: &[bool], from: usize, far: &[bool], node: usize) -> bool
    ensures { result ≡ (get_or row.now node false
        || (get_or row.now from false && get_or far.now node false)) }
{
    let before = is_marked(row, node);
    let goes = is_marked(row, from);
    let beyond = is_marked(far, node);
    before || (goes && beyond)
}
