ghost use Rattle.std.specs.Prelude.{◌≡◌, ◌⊎◌, ◌-◌, ◌<◌, ◌≤◌, ◌^◌, ℕ, IfOk, length, map, slice_get};
ghost use Rattle.std.specs.Prelude.{slice_index};
ghost use Rattle.basics.specs.Members.{Has};
ghost use Rattle.merge_graph.specs.Levels.{AreLevelRows, AreLevels, IsNumbered, asked};

use crate::edge::Edge;
use crate::places::{row_at, rows};
use crate::slots::number_at;
use crate::waiting::sources;
use std::alloc::{AllocError, Global};

/// The level of each component: the least one that is at least 1, at least that of what it waits
/// for, and above that of what it builds on.
pub fn levels(
    alloc: Global,
    numbers: &[usize],
    count: usize,
    edges: &[Edge],
) -> Result<Vec<usize>, AllocError>
    requires { IsNumbered edges.now count numbers.now }
    ensures { IfOk result (λ v. AreLevels edges.now numbers.now count v.items) }
{
    let sources = sources(alloc, numbers, edges)?;
    let leaving = rows(alloc, &sources, count)?;
    let mut levels = Vec::new(alloc);
    for number in 0..count {
        let level = level_over(numbers, edges, &levels, row_at(&leaving, number));
        levels.push(level)?;
    }
    Ok(levels)
}

/// The nodes by level, those of level 1 first. Levels have no gaps.
pub fn level_rows(
    alloc: Global,
    numbers: &[usize],
    count: usize,
    edges: &[Edge],
) -> Result<Vec<Vec<usize>>, AllocError>
    requires { IsNumbered edges.now count numbers.now }
    ensures { IfOk result
        (λ v. AreLevelRows edges.now numbers.now count (map (λ r. r.items) v.items)) }
{
    let levels = levels(alloc, numbers, count, edges)?;
    let places = row_numbers(alloc, numbers, &levels)?;
    let rows = rows(alloc, &places, highest(&levels))?;
    Ok(rows)
}

/// For each node the number of the row of its level.
fn row_numbers(alloc: Global, numbers: &[usize], levels: &[usize]) -> Result<Vec<usize>, AllocError>
    ensures { IfOk result (λ v. v.items ≡ map (λ k. slice_index levels.now k - 1) numbers.now) }
{
    let mut places = Vec::new(alloc);
    for number in numbers {
        places.push(number_at(levels, *number).saturating_sub(1))?;
    }
    Ok(places)
}

fn highest(levels: &[usize]) -> usize
    ensures above { (k : ℕ) → slice_index levels.now k ≤ result }
    ensures found { 0 < result → (k : ℕ) × (k < length levels.now)
        × (slice_index levels.now k ≡ result) }
{
    let mut highest = 0;
    for level in levels {
        highest = higher(highest, *level);
    }
    highest
}

/// The least level that the edges at these places allow, over levels of what they go to.
fn level_over(numbers: &[usize], edges: &[Edge], levels: &[usize], places: &[usize]) -> usize
    requires { (i : ℕ) → Has places.now i →
        asked numbers.now levels.now (slice_get edges.now i) < 2 ^ 64 }
    ensures least { 1 ≤ result }
    ensures each { (i : ℕ) → Has places.now i →
        asked numbers.now levels.now (slice_get edges.now i) ≤ result }
    ensures found { (result ≡ 1) ⊎ ((i : ℕ) × Has places.now i
        × (result ≡ asked numbers.now levels.now (slice_get edges.now i))) }
{
    let mut level = 1;
    for place in places {
        level = higher(level, level_of_edge(numbers, edges, levels, *place));
    }
    level
}

fn higher(level: usize, other: usize) -> usize
    ensures first { level ≤ result }
    ensures second { other ≤ result }
    ensures either { (result ≡ level) ⊎ (result ≡ other) }
{
    if level < other { other } else { level }
}

fn level_of_edge(numbers: &[usize], edges: &[Edge], levels: &[usize], place: usize) -> usize
    requires { asked numbers.now levels.now (slice_get edges.now place) < 2 ^ 64 }
    ensures { result ≡ asked numbers.now levels.now (slice_get edges.now place) }
{
    match edges.get(place) {
        Some(edge) => {
            let level = number_at(levels, number_at(numbers, edge.to));
            if edge.builds { level + 1 } else { level }
        }
        None => 0,
    }
}
