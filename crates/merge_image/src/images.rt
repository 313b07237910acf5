ghost use Rattle.std.specs.Prelude.{◌≡◌, ◌≤◌, ◌<◌, ℕ, IfOk, IsErrOf, IsTrue, MatchOption};
ghost use Rattle.std.specs.Prelude.{length, take};
ghost use Rattle.file_tree.specs.Disk.{Rose};
ghost use Rattle.build_pool.specs.Pool.{PoolRose, SameIds, faults_of};
ghost use Rattle.merge_image.specs.Images.{HasMany, HoldsOfOne, IsBuilt};
ghost use Rattle.merge_image.specs.Images.{IsPastLimit, IsTold, TellAlike};

use crate::limits::MOST_ENTRIES;
use build_pool::{BuildPool, BuildStop, Builder, Order};
use file_tree::Entry;
use std::alloc::Global;

/// Why there is no image.
#[derive(Clone, Copy, Debug, PartialEq, Eq)]
pub enum ImageStop {
    /// The builder failed.
    Failed,
    /// The image has more than 100,000 entries.
    Many,
    Memory,
}

/// Has a builder of the pool build the order, and answers its image.
pub fn built_image<B: Builder>(
    alloc: Global,
    pool: &mut BuildPool<B>,
    order: &Order,
) -> Result<Vec<Entry>, ImageStop>
    requires resting { 0 < length pool.old.resting }
    ensures image { IfOk result
        (λ v. IsBuilt B.tells B.told pool.old.resting order.now v.items) }
    ensures many { IsErrOf result ImageStop.Many →
        IsPastLimit B.tells B.told pool.old.resting order.now }
    ensures alike { TellAlike B.told pool.old.resting pool.new.resting }
    ensures resting { length pool.new.resting ≡ length pool.old.resting }
    ensures ids { SameIds B.number pool.old pool.new }
    ensures lent { pool.new.lent ≡ pool.old.lent }
    ensures count { faults_of B.faults pool.old ≤ faults_of B.faults pool.new }
    ensures rose { IsErrOf result ImageStop.Failed → PoolRose B.faults pool.old pool.new }
{
    match asked_image(alloc, pool, order) {
        Ok(Some(image)) => Ok(image),
        Ok(None) => Err(ImageStop::Many),
        Err(BuildStop::Failed) => Err(ImageStop::Failed),
        Err(BuildStop::Memory) => Err(ImageStop::Memory),
    }
}

/// What a builder of the pool makes for the order.
fn asked_image<B: Builder>(
    alloc: Global,
    pool: &mut BuildPool<B>,
    order: &Order,
) -> Result<Option<Vec<Entry>>, BuildStop>
    requires resting { 0 < length pool.old.resting }
    ensures image { IfOk result (λ r. HoldsOfOne B.told pool.old.resting order.now
        (λ seen. MatchOption r (HasMany B.tells seen) (λ v. IsTold B.tells seen v.items))) }
    ensures alike { TellAlike B.told pool.old.resting pool.new.resting }
    ensures resting { length pool.new.resting ≡ length pool.old.resting }
    ensures ids { SameIds B.number pool.old pool.new }
    ensures lent { pool.new.lent ≡ pool.old.lent }
    ensures count { faults_of B.faults pool.old ≤ faults_of B.faults pool.new }
    ensures rose { IsErrOf result BuildStop.Failed → PoolRose B.faults pool.old pool.new }
{
    let Some(mut builder) = pool.lend() else {
        unreachable!()
    };
    let answer = taken_image(alloc, &mut builder, order);
    pool.take_back(builder);
    answer
}

/// The image that a builder makes for the order, or none where it has too many entries: then it
/// isn't taken.
fn taken_image<B: Builder>(
    alloc: Global,
    builder: &mut B,
    order: &Order,
) -> Result<Option<Vec<Entry>>, BuildStop>
    ensures image { IfOk result (λ r.
        MatchOption r (HasMany B.tells (B.told builder.old order.now))
        (λ v. IsTold B.tells (B.told builder.old order.now) v.items)) }
    ensures same_number { B.number builder.new ≡ B.number builder.old }
    ensures same_told { B.told builder.new ≡ B.told builder.old }
    ensures count { B.faults builder.old ≤ B.faults builder.new }
    ensures cause { IsErrOf result BuildStop.Failed →
        Rose (B.faults builder.old) (B.faults builder.new) }
{
    let count = builder.start(order)?;
    if count as usize > MOST_ENTRIES {
        return Ok(None);
    }
    let image = entries_of(alloc, builder, count)?;
    Ok(Some(image))
}

/// The first entries of the image that was started, so many.
fn entries_of<B: Builder>(
    alloc: Global,
    builder: &mut B,
    count: u32,
) -> Result<Vec<Entry>, BuildStop>
    requires count { B.started builder.old ≡ count }
    ensures entries { IsTrue B.tells → IfOk result
        (λ v. v.items ≡ take count (B.image builder.old)) }
    ensures same_number { B.number builder.new ≡ B.number builder.old }
    ensures same_told { B.told builder.new ≡ B.told builder.old }
    ensures count { B.faults builder.old ≤ B.faults builder.new }
    ensures cause { IsErrOf result BuildStop.Failed →
        Rose (B.faults builder.old) (B.faults builder.new) }
{
    let mut entries = Vec::new(alloc);
    for index in 0..count {
        let entry = builder.entry(index)?;
        match entries.push(entry) {
            Ok(()) => {}
            Err(_) => return Err(BuildStop::Memory),
        }
    }
    Ok(entries)
}
