ghost use Rattle.std.specs.Prelude.{◌≡◌, ◌≢◌, ◌<◌, ◌≤◌, ℕ, IfOk, IsTrue, false, length};
ghost use Rattle.std.specs.Prelude.{slice_index, slice_index_or, true};
ghost use Rattle.merge_graph.specs.Certified.{AllFall, AreMarkedReached, AreOpened};
ghost use Rattle.merge_graph.specs.Certified.{AreReached, HaveFirsts, HaveNumbers};

use crate::edge::Edge;
use crate::slots::{is_marked, mark, number_at, put_number};
use std::alloc::{AllocError, Global};

/// Whether each node has a number whose first node isn't behind it.
pub(crate) fn have_firsts(numbers: &[usize], firsts: &[usize]) -> bool
    ensures { IsTrue result → HaveFirsts numbers.now firsts.now }
{
    for (node, number) in numbers.iter().enumerate() {
        if *number >= firsts.len() {
            return false;
        }
        if number_at(firsts, *number) > node {
            return false;
        }
    }
    true
}

/// Whether each number is that of its first node.
pub(crate) fn have_numbers(numbers: &[usize], firsts: &[usize]) -> bool
    ensures { IsTrue result → HaveNumbers numbers.now firsts.now }
{
    for (number, first) in firsts.iter().enumerate() {
        if *first >= numbers.len() {
            return false;
        }
        if number_at(numbers, *first) != number {
            return false;
        }
    }
    true
}

/// Whether no edge goes to a greater number.
pub(crate) fn all_fall(numbers: &[usize], edges: &[Edge]) -> bool
    ensures { IsTrue result → AllFall numbers.now edges.now }
{
    for edge in edges {
        if number_at(numbers, edge.to) > number_at(numbers, edge.from) {
            return false;
        }
    }
    true
}

fn marked_firsts(
    alloc: Global,
    numbers: &[usize],
    firsts: &[usize],
    edges: &[Edge],
) -> Result<Vec<bool>, AllocError>
    requires { HaveNumbers numbers.now firsts.now }
    ensures all { IfOk result (λ v. length v.items ≡ length numbers.now) }
    ensures reached { IfOk result
        (λ v. AreMarkedReached numbers.now firsts.now edges.now v.items) }
{
    let mut marks = vec![in alloc; false; numbers.len()]?;
    for first in firsts {
        mark(&mut marks, *first);
    }
    Ok(marks)
}

/// Marks where the edge goes, if it goes on from a marked node inside a component.
fn follow(marks: &mut Vec<bool>, numbers: &[usize], firsts: &[usize], edges: &[Edge], place: usize)
    requires { AreMarkedReached numbers.now firsts.now edges.now marks.old.items }
    ensures all { length marks.new.items ≡ length marks.old.items }
    ensures reached { AreMarkedReached numbers.now firsts.now edges.now marks.new.items }
{
    if let Some(edge) = edges.get(place) {
        let inside = number_at(numbers, edge.from) == number_at(numbers, edge.to);
        if inside && is_marked(marks, edge.from) {
            mark(marks, edge.to);
        }
    }
}

/// Whether all nodes are reached from the first ones along the way.
pub(crate) fn are_reached(
    alloc: Global,
    numbers: &[usize],
    firsts: &[usize],
    edges: &[Edge],
    way: &[usize],
) -> Result<bool, AllocError>
    requires { HaveNumbers numbers.now firsts.now }
    ensures { IfOk result (λ b. IsTrue b → AreReached numbers.now firsts.now edges.now) }
{
    let mut marks = marked_firsts(alloc, numbers, firsts, edges)?;
    for place in way {
        follow(&mut marks, numbers, firsts, edges, *place);
    }
    Ok(are_all(&marks))
}

fn are_all(marks: &[bool]) -> bool
    ensures { IsTrue result → (k : ℕ) → k < length marks.now →
        slice_index_or marks.now k false ≡ true }
{
    for mark in marks {
        if !*mark {
            return false;
        }
    }
    true
}

/// Of each number when it may come: behind all that it waits for.
pub(crate) fn opened(
    alloc: Global,
    numbers: &[usize],
    count: usize,
    edges: &[Edge],
) -> Result<Vec<usize>, AllocError>
    ensures all { IfOk result (λ v. length v.items ≡ count) }
    ensures opened { IfOk result (λ v. AreOpened numbers.now edges.now v.items) }
{
    let mut opened = vec![in alloc; 0; count]?;
    for edge in edges {
        raise(
            &mut opened,
            number_at(numbers, edge.from),
            number_at(numbers, edge.to),
        );
    }
    Ok(opened)
}

/// One number waits for another one.
fn raise(opened: &mut Vec<usize>, from: usize, to: usize)
    ensures all { length opened.new.items ≡ length opened.old.items }
    ensures others { (k : ℕ) → k ≢ from →
        slice_index opened.new.items k ≡ slice_index opened.old.items k }
    ensures bound { (bound : ℕ) → (from ≢ to → to < bound) →
        slice_index opened.old.items from ≤ bound → slice_index opened.new.items from ≤ bound }
{
    if from == to {
        return;
    }
    if number_at(opened, from) <= to {
        put_number(opened, from, to.saturating_add(1));
    }
}
