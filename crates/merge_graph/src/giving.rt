ghost use Rattle.std.specs.Prelude.{◌≡◌, ◌<◌, ℕ, IfNone, IfOk, IfSome, Some, false, if◌then◌else◌};
ghost use Rattle.std.specs.Prelude.{length, map, true, unwrap_or};
ghost use Rattle.std.specs.Option.{is_some};
ghost use Rattle.std.specs.Prelude.{None, replicate, slice_set};
ghost use Rattle.merge_graph.specs.Certified.{AreCertified};
ghost use Rattle.merge_graph.specs.Closure.{given_to, in_one, lets_come, may_come};
ghost use Rattle.merge_graph.specs.Edges.{AreBetween};

use crate::closure::{closure, in_one};
use crate::edge::Edge;
use crate::ordering::Guess;
use std::alloc::{AllocError, Global};

/// Numbers as their definition has them: each time the smallest node of those components that may
/// come. It goes through all nodes and edges for each number, so it is for small graphs, and for
/// what the quick way should ever get wrong.
pub(crate) fn give_all(alloc: Global, nodes: usize, edges: &[Edge]) -> Result<Guess, AllocError>
    requires { AreBetween nodes edges.now }
    ensures { IfOk result
        (λ g. AreCertified nodes edges.now g.numbers.items g.firsts.items) }
{
    let rows = closure(alloc, nodes, edges)?;
    let mut given = none_given(alloc, nodes)?;
    let mut firsts = Vec::new(alloc);
    while let Some(first) = next(&rows, edges, &given) {
        give(&mut given, &rows, first, firsts.len());
        firsts.push(first)?;
    }
    let numbers = plain(alloc, &given)?;
    Ok(Guess { numbers, firsts })
}

fn none_given(alloc: Global, nodes: usize) -> Result<Vec<Option<usize>>, AllocError>
    ensures { IfOk result (λ v. v.items ≡ replicate nodes None) }
{
    let mut given = Vec::new(alloc);
    for _ in 0..nodes {
        given.push(None)?;
    }
    Ok(given)
}

fn plain(alloc: Global, given: &[Option<usize>]) -> Result<Vec<usize>, AllocError>
    ensures { IfOk result (λ v. v.items ≡ map (λ o. unwrap_or o 0) given.now) }
{
    let mut numbers = Vec::new(alloc);
    for number in given {
        numbers.push((*number).unwrap_or(0))?;
    }
    Ok(numbers)
}

/// The first node that may come.
fn next(rows: &[Vec<bool>], edges: &[Edge], given: &[Option<usize>]) -> Option<usize>
    ensures within { IfSome result (λ x. x < length given.now) }
    ensures comes { IfSome result
        (λ x. may_come (map (λ r. r.items) rows.now) edges.now given.now x ≡ true) }
    ensures least { IfSome result (λ x. (y : ℕ) → y < x →
        may_come (map (λ r. r.items) rows.now) edges.now given.now y ≡ false) }
    ensures none { IfNone result ((y : ℕ) → y < length given.now →
        may_come (map (λ r. r.items) rows.now) edges.now given.now y ≡ false) }
{
    for node in 0..given.len() {
        if may_come(rows, edges, given, node) {
            return Some(node);
        }
    }
    None
}

fn may_come(rows: &[Vec<bool>], edges: &[Edge], given: &[Option<usize>], node: usize) -> bool
    ensures { result ≡ may_come (map (λ r. r.items) rows.now) edges.now given.now node }
{
    if is_given(given, node) {
        return false;
    }
    for edge in edges {
        if !lets_come(rows, given, node, edge) {
            return false;
        }
    }
    true
}

fn lets_come(rows: &[Vec<bool>], given: &[Option<usize>], node: usize, edge: &Edge) -> bool
    ensures { result ≡ lets_come (map (λ r. r.items) rows.now) given.now node edge.now }
{
    let mine = in_one(rows, node, edge.from);
    let inside = in_one(rows, node, edge.to);
    let there = is_given(given, edge.to);
    !mine || (inside || there)
}

fn is_given(given: &[Option<usize>], node: usize) -> bool
    ensures { result ≡ is_some (given_to given.now node) }
{
    match given.get(node) {
        Some(number) => number.is_some(),
        None => false,
    }
}

/// Gives a number to the component of a node.
fn give(given: &mut Vec<Option<usize>>, rows: &[Vec<bool>], first: usize, number: usize)
    ensures all { length given.new.items ≡ length given.old.items }
    ensures each { (y : ℕ) → y < length given.old.items → given_to given.new.items y
        ≡ (if in_one (map (λ r. r.items) rows.now) first y then Some number
        else given_to given.old.items y) }
{
    for node in 0..given.len() {
        if in_one(rows, first, node) {
            put(given, node, number);
        }
    }
}

fn put(given: &mut Vec<Option<usize>>, node: usize, number: usize)
    ensures { given.new.items ≡ slice_set given.old.items node (Some number) }
{
    if node < given.len() {
        given[node] = Some(number);
    }
}
