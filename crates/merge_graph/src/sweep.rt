ghost use Rattle.std.specs.Prelude.{◌≡◌, ◌≢◌, ◌≤◌, ℕ, IfOk, IsTrue, OnOk, length, slice_index};
ghost use Rattle.std.specs.Prelude.{true};
ghost use Rattle.std.specs.BTreeSet.{contains};
ghost use Rattle.std.specs.Ordering.{nat_cmp};
ghost use Rattle.basics.specs.Members.{Has};
ghost use Rattle.merge_graph.specs.Certified.{AreApart, AreFirst};

use crate::places::{row_at, rows};
use crate::slots::number_at;
use std::alloc::{AllocError, Global};
use std::collections::BTreeSet;

/// Whether each number has the smallest first node of those that may come by then.
pub(crate) fn are_first(
    alloc: Global,
    firsts: &[usize],
    opened: &[usize],
) -> Result<bool, AllocError>
    requires all { length opened.now ≡ length firsts.now }
    requires apart { AreApart firsts.now }
    ensures { IfOk result (λ b. IsTrue b → AreFirst firsts.now opened.now) }
{
    let coming = rows(alloc, opened, firsts.len())?;
    let mut ready = BTreeSet::new(alloc);
    for (number, first) in firsts.iter().enumerate() {
        add_all(&mut ready, firsts, row_at(&coming, number))?;
        if !takes_first(&mut ready, *first) {
            return Ok(false);
        }
    }
    Ok(true)
}

/// Adds the first nodes of these numbers.
fn add_all(
    ready: &mut BTreeSet<usize>,
    firsts: &[usize],
    numbers: &[usize],
) -> Result<(), AllocError>
    ensures kept { (x : ℕ) →
        contains nat_cmp ready.old x ≡ true → contains nat_cmp ready.new x ≡ true }
    ensures come { OnOk result ((k : ℕ) → Has numbers.now k →
        contains nat_cmp ready.new (slice_index firsts.now k) ≡ true) }
{
    for number in numbers {
        add(ready, number_at(firsts, *number))?;
    }
    Ok(())
}

fn add(ready: &mut BTreeSet<usize>, first: usize) -> Result<(), AllocError>
    ensures kept { (x : ℕ) →
        contains nat_cmp ready.old x ≡ true → contains nat_cmp ready.new x ≡ true }
    ensures comes { OnOk result (contains nat_cmp ready.new first ≡ true) }
{
    ready.insert(first)?;
    Ok(())
}

/// Takes the smallest one away, and tells whether it is this one.
fn takes_first(ready: &mut BTreeSet<usize>, first: usize) -> bool
    ensures least { IsTrue result → (x : ℕ) → contains nat_cmp ready.old x ≡ true → first ≤ x }
    ensures others { IsTrue result → (x : ℕ) → x ≢ first →
        contains nat_cmp ready.old x ≡ true → contains nat_cmp ready.new x ≡ true }
{
    match ready.pop_first() {
        Some(node) => node == first,
        None => false,
    }
}
