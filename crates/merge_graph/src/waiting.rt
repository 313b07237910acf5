ghost use Rattle.std.specs.Prelude.{◌≡◌, ◌≢◌, ◌⊎◌, ◌↔◌, ℕ, IfOk, OnOk, length, map, slice_get};
ghost use Rattle.std.specs.Prelude.{slice_index, true};
ghost use Rattle.std.specs.BTreeSet.{contains};
ghost use Rattle.std.specs.Option.{option_map};
ghost use Rattle.std.specs.Ordering.{nat_cmp};
ghost use Rattle.merge_graph.specs.After.{AreAfter, IsAfter};
ghost use Rattle.merge_graph.specs.Rows.{AreRising, places_of};

use crate::edge::Edge;
use crate::places::{row_at, rows};
use crate::slots::number_at;
use std::alloc::{AllocError, Global};
use std::collections::BTreeSet;

/// For each of so many components the numbers of those to which an edge goes from it, rising. What
/// is reached through others isn't added, and none is left out for it.
pub fn after(
    alloc: Global,
    numbers: &[usize],
    count: usize,
    edges: &[Edge],
) -> Result<Vec<Vec<usize>>, AllocError>
    ensures { IfOk result
        (λ v. AreAfter edges.now numbers.now count (map (λ r. r.items) v.items)) }
{
    let sources = sources(alloc, numbers, edges)?;
    let leaving = rows(alloc, &sources, count)?;
    let mut all = Vec::new(alloc);
    for number in 0..count {
        let one = after_one(alloc, numbers, edges, row_at(&leaving, number), number)?;
        all.push(one)?;
    }
    Ok(all)
}

/// The number of the component from which each edge goes.
pub(crate) fn sources(
    alloc: Global,
    numbers: &[usize],
    edges: &[Edge],
) -> Result<Vec<usize>, AllocError>
    ensures { IfOk result (λ v. v.items ≡ map (λ e. slice_index numbers.now e.from) edges.now) }
{
    let mut sources = Vec::new(alloc);
    for edge in edges {
        sources.push(number_at(numbers, edge.from))?;
    }
    Ok(sources)
}

fn after_one(
    alloc: Global,
    numbers: &[usize],
    edges: &[Edge],
    places: &[usize],
    number: usize,
) -> Result<Vec<usize>, AllocError>
    requires { places.now ≡ places_of (map (λ e. slice_index numbers.now e.from) edges.now) number }
    ensures { IfOk result (λ v. IsAfter edges.now numbers.now number v.items) }
{
    let mut targets = BTreeSet::new(alloc);
    for place in places {
        match target(numbers, edges, *place) {
            Some(to) => add_other(&mut targets, to, number)?,
            None => {}
        }
    }
    let list = listed(alloc, &targets)?;
    Ok(list)
}

/// The number of the component to which an edge goes.
fn target(numbers: &[usize], edges: &[Edge], place: usize) -> Option<usize>
    ensures { result
        ≡ option_map (λ e. slice_index numbers.now e.to) (slice_get edges.now place) }
{
    match edges.get(place) {
        Some(edge) => Some(number_at(numbers, edge.to)),
        None => None,
    }
}

/// Adds a number to others, unless it is that one.
fn add_other(targets: &mut BTreeSet<usize>, to: usize, number: usize) -> Result<(), AllocError>
    ensures { OnOk result ((j : ℕ) → contains nat_cmp targets.new j ≡ true
        ↔ (contains nat_cmp targets.old j ≡ true ⊎ ((j ≢ number) × (to ≡ j)))) }
{
    if to != number {
        targets.insert(to)?;
    }
    Ok(())
}

/// The numbers of a set, rising.
#[tactic(auto, using(crate::proofs::Waited::sorted_rise))]
fn listed(alloc: Global, targets: &BTreeSet<usize>) -> Result<Vec<usize>, AllocError>
    ensures rising { AreRising targets.now.keys }
    ensures same { IfOk result (λ v. v.items ≡ targets.now.keys) }
{
    let list = targets.iter().copied().collect(alloc)?;
    Ok(list)
}
