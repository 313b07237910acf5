ghost use Rattle.std.specs.Prelude.{◌≡◌, [], ℕ, List, IfOk, OnOk, get_or, map, replicate};
ghost use Rattle.merge_graph.specs.Rows.{AreRows, places_of, with_place};

use std::alloc::{AllocError, Global};

/// For each number below `count` the places at which it stands among `numbers`, rising.
pub fn rows(alloc: Global, numbers: &[usize], count: usize) -> Result<Vec<Vec<usize>>, AllocError>
    ensures { IfOk result (λ v. AreRows numbers.now count (map (λ r. r.items) v.items)) }
{
    let mut rows = empty_rows(alloc, count)?;
    for (at, number) in numbers.iter().enumerate() {
        put(&mut rows, *number, at)?;
    }
    Ok(rows)
}

/// The places at which one number stands, rising.
pub(crate) fn row(alloc: Global, numbers: &[usize], number: usize) -> Result<Vec<usize>, AllocError>
    ensures { IfOk result (λ v. v.items ≡ places_of numbers.now number) }
{
    let mut row = Vec::new(alloc);
    for (at, other) in numbers.iter().enumerate() {
        if *other == number {
            row.push(at)?;
        }
    }
    Ok(row)
}

fn empty_rows(alloc: Global, count: usize) -> Result<Vec<Vec<usize>>, AllocError>
    ensures { IfOk result (λ v. map (λ r. r.items) v.items ≡ replicate count []) }
{
    let mut rows = Vec::new(alloc);
    for _ in 0..count {
        rows.push(Vec::new(alloc))?;
    }
    Ok(rows)
}

fn put(rows: &mut Vec<Vec<usize>>, number: usize, at: usize) -> Result<(), AllocError>
    ensures { OnOk result (map (λ r. r.items) rows.new.items
        ≡ with_place (map (λ r. r.items) rows.old.items) number at) }
{
    if number < rows.len() {
        rows[number].push(at)?;
    }
    Ok(())
}

/// The row of a number, and no place where there is none.
pub(crate) fn row_at(rows: &[Vec<usize>], number: usize) -> &[usize]
    ensures { result.now ≡ get_or (map (λ r. r.items) rows.now) number [] }
{
    match rows.get(number) {
        Some(row) => row.as_slice(),
        None => &[],
    }
}
