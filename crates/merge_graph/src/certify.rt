ghost use Rattle.std.specs.Prelude.{◌≡◌, IfOk, IsTrue, length, map};
ghost use Rattle.merge_graph.specs.Certified.{AreCertified, AreComponents, AreReached};
ghost use Rattle.merge_graph.specs.Certified.{ComeInOrder, HaveFirsts, HaveNumbers};
ghost use Rattle.merge_graph.specs.Edges.{AreBetween, turned};

use crate::checks::{all_fall, are_reached, have_firsts, have_numbers, opened};
use crate::components::label_nodes;
use crate::edge::Edge;
use crate::giving::give_all;
use crate::ordering::{Guess, put_in_order};
use crate::places::rows;
use crate::sweep::are_first;
use crate::ways::way_from_firsts;
use std::alloc::{AllocError, Global};

/// Numbers that are those of the components, with their smallest nodes.
pub(crate) fn certified(alloc: Global, nodes: usize, edges: &[Edge]) -> Result<Guess, AllocError>
    requires { AreBetween nodes edges.now }
    ensures { IfOk result
        (λ g. AreCertified nodes edges.now g.numbers.items g.firsts.items) }
{
    let guess = guess(alloc, nodes, edges)?;
    if are_numbers(alloc, nodes, edges, &guess.numbers, &guess.firsts)? {
        return Ok(guess);
    }
    let slow = give_all(alloc, nodes, edges)?;
    Ok(slow)
}

fn guess(alloc: Global, nodes: usize, edges: &[Edge]) -> Result<Guess, AllocError> {
    let leaving = leaving(alloc, nodes, edges)?;
    let labels = label_nodes(alloc, nodes, edges, &leaving)?;
    put_in_order(alloc, &labels, edges)
}

/// For each node the edges that leave it.
fn leaving(alloc: Global, nodes: usize, edges: &[Edge]) -> Result<Vec<Vec<usize>>, AllocError> {
    let mut sources = Vec::new(alloc);
    for edge in edges {
        sources.push(edge.from)?;
    }
    rows(alloc, &sources, nodes)
}

/// The edges the other way round.
fn turned(alloc: Global, edges: &[Edge]) -> Result<Vec<Edge>, AllocError>
    ensures { IfOk result (λ v. v.items ≡ map turned edges.now) }
{
    let mut all = Vec::new(alloc);
    for edge in edges {
        all.push(Edge {
            from: edge.to,
            to: edge.from,
            builds: edge.builds,
        })?;
    }
    Ok(all)
}

/// Whether the numbers are those of the components.
fn are_numbers(
    alloc: Global,
    nodes: usize,
    edges: &[Edge],
    numbers: &[usize],
    firsts: &[usize],
) -> Result<bool, AllocError>
    requires { AreBetween nodes edges.now }
    ensures { IfOk result (λ b. IsTrue b → AreCertified nodes edges.now numbers.now firsts.now) }
{
    if !are_named(nodes, numbers, firsts) {
        return Ok(false);
    }
    if !are_components(alloc, numbers, firsts, edges)? {
        return Ok(false);
    }
    let in_order = come_in_order(alloc, numbers, firsts, edges)?;
    Ok(in_order)
}

fn are_named(nodes: usize, numbers: &[usize], firsts: &[usize]) -> bool
    ensures all { IsTrue result → length numbers.now ≡ nodes }
    ensures firsts { IsTrue result → HaveFirsts numbers.now firsts.now }
    ensures named { IsTrue result → HaveNumbers numbers.now firsts.now }
{
    numbers.len() == nodes && have_firsts(numbers, firsts) && have_numbers(numbers, firsts)
}

fn are_components(
    alloc: Global,
    numbers: &[usize],
    firsts: &[usize],
    edges: &[Edge],
) -> Result<bool, AllocError>
    requires { HaveNumbers numbers.now firsts.now }
    ensures { IfOk result (λ b. IsTrue b → AreComponents numbers.now firsts.now edges.now) }
{
    if !all_fall(numbers, edges) {
        return Ok(false);
    }
    if !reach_all(alloc, numbers, firsts, edges)? {
        return Ok(false);
    }
    let turned = turned(alloc, edges)?;
    reach_all(alloc, numbers, firsts, &turned)
}

/// Whether all nodes are reached from the first ones of their numbers.
fn reach_all(
    alloc: Global,
    numbers: &[usize],
    firsts: &[usize],
    edges: &[Edge],
) -> Result<bool, AllocError>
    requires { HaveNumbers numbers.now firsts.now }
    ensures { IfOk result (λ b. IsTrue b → AreReached numbers.now firsts.now edges.now) }
{
    let leaving = leaving(alloc, numbers.len(), edges)?;
    let way = way_from_firsts(alloc, numbers, firsts, edges, &leaving)?;
    are_reached(alloc, numbers, firsts, edges, &way)
}

fn come_in_order(
    alloc: Global,
    numbers: &[usize],
    firsts: &[usize],
    edges: &[Edge],
) -> Result<bool, AllocError>
    requires { HaveNumbers numbers.now firsts.now }
    ensures { IfOk result (λ b. IsTrue b → ComeInOrder numbers.now firsts.now edges.now) }
{
    let opened = opened(alloc, numbers, firsts.len(), edges)?;
    are_first(alloc, firsts, &opened)
}
