ghost use Rattle.std.specs.Prelude.{◌≡◌, ◌↔◌, ◌<◌, ◌*◌, ◌||◌, IfOk, IsTrue, List, [], get_or};
ghost use Rattle.std.specs.Prelude.{length, map, nat_eq, ℕ};
ghost use Rattle.plan_law.specs.Plans.{Reaches};
ghost use Rattle.plan_lives.specs.Form.{IsPlanInForm};
ghost use Rattle.plan_lives.specs.IsReach.{IsReach};
ghost use Rattle.plan_lives.specs.Reaching.{AreReaching, has_bit, some_row};

use crate::plan::Group;
use std::alloc::{AllocError, Global};

/// For each group the groups that reach it, a bit each.
#[derive(Drop)]
pub struct Reach<'a> {
    pub groups: &'a [Group],
    pub(crate) rows: Vec<Vec<u64>>,
}

impl<'a> Reach<'a> {
    /// Finds which groups reach which: each row is joined of those of the groups that it waits for.
    pub fn new(alloc: Global, groups: &'a [Group]) -> Result<Reach<'a>, AllocError>
        requires { IsPlanInForm groups.now }
        ensures groups { IfOk result (λ reach. reach.groups.now ≡ groups.now) }
        ensures exact { IfOk result IsReach }
    {
        let rows = rows_of(alloc, groups)?;
        Ok(Reach { groups, rows })
    }

    /// Whether one group reaches another.
    pub fn reaches(&self, earlier: usize, later: usize) -> bool
        requires is { IsReach self.now }
        requires earlier { earlier < length self.now.groups.now }
        requires later { later < length self.now.groups.now }
        ensures { IsTrue result ↔ Reaches self.now.groups.now later earlier }
    {
        has_bit(&self.rows[later], earlier)
    }
}

/// Whether a row of words has the bit.
fn has_bit(words: &[u64], bit: usize) -> bool
    requires { bit < 64 * length words.now }
    ensures { result ≡ has_bit words.now bit }
{
    (words[bit / 64] >> (bit % 64)) & 1 == 1
}

fn set_bit(row: &mut Vec<u64>, bit: usize)
    requires { bit < 64 * length row.old.items }
    ensures length { length row.new.items ≡ length row.old.items }
    ensures bits { (k : ℕ) → has_bit row.new.items k ≡ (nat_eq k bit || has_bit row.old.items k) }
{
    row[bit / 64] |= 1 << (bit % 64);
}

/// Sets the bits of another row too.
fn join(row: &mut Vec<u64>, other: &[u64])
    requires { length row.old.items ≡ length other.now }
    ensures length { length row.new.items ≡ length row.old.items }
    ensures bits { (k : ℕ) → has_bit row.new.items k ≡
        (has_bit row.old.items k || has_bit other.now k) }
{
    for i in 0..other.len() {
        row[i] |= other[i];
    }
}

/// The bits of one group: its own, and those of the groups that it waits for.
fn row_of(
    alloc: Global,
    rows: &[Vec<u64>],
    width: usize,
    g: usize,
    after: &[usize],
) -> Result<Vec<u64>, AllocError>
    requires g { g < 64 * width }
    requires after { (k : ℕ) → k < length after.now → get_or after.now k 0 < length rows.now }
    requires wide { (k : ℕ) → k < length rows.now →
        length (get_or (map (λ row. row.items) rows.now) k []) ≡ width }
    ensures length { IfOk result (λ row. length row.items ≡ width) }
    ensures bits { IfOk result (λ row. (k : ℕ) → has_bit row.items k ≡
        (some_row (map (λ row. row.items) rows.now) after.now k || nat_eq k g)) }
{
    let mut row = vec![in alloc; 0u64; width]?;
    set_bit(&mut row, g);
    for h in after {
        join(&mut row, &rows[*h]);
    }
    Ok(row)
}

fn rows_of(alloc: Global, groups: &[Group]) -> Result<Vec<Vec<u64>>, AllocError>
    requires { IsPlanInForm groups.now }
    ensures { IfOk result (λ rows. AreReaching groups.now (map (λ row. row.items) rows.items)) }
{
    let width = groups.len() / 64 + 1;
    let mut rows = Vec::new(alloc);
    for (g, group) in groups.iter().enumerate() {
        let row = row_of(alloc, &rows, width, g, &group.after)?;
        rows.push(row)?;
    }
    Ok(rows)
}
