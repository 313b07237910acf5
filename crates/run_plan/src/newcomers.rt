ghost use Rattle.std.specs.Prelude.{◌≡◌, ◌<◌, ◌≤◌, ◌++◌, ◌∷◌, [], IfErr, IfOk, OnOk, length, map};
ghost use Rattle.std.specs.List.{AllZip};
ghost use Rattle.build_pool.specs.Pool.{PoolRose, SameIds, faults_of};
ghost use Rattle.run_files.specs.Made.{package_of};
ghost use Rattle.merge_image.specs.Images.{IsBuilt, IsPastLimit, TellAlike};
ghost use Rattle.run_plan.specs.Runs.{StopsBuild, StopsOrder};

use crate::stop::PlanStop;
use build_pool::{BuildPool, Builder, Order};
use file_tree::{Entry, TreeFault};
use merge_group::Stop;
use merge_image::{ImageStop, built_image};
use pkg_state::{Pkg, copy_package};
use run_files::Newcomer;
use std::alloc::{AllocError, Global};

/// The additions of a group, each with the image that a builder of the pool makes for its order. The
/// first that has none stops it.
pub(crate) fn newcomers_of<B: Builder>(
    alloc: Global,
    pool: &mut BuildPool<B>,
    additions: &[Pkg],
    orders: &[Order],
) -> Result<Vec<Newcomer>, PlanStop>
    requires resting { 0 < length pool.old.resting }
    requires count { length orders.now ≡ length additions.now }
    ensures brings { IfOk result (λ v. map package_of v.items ≡ additions.now) }
    ensures images { IfOk result (λ v. AllZip
        (λ o n. IsBuilt B.tells B.told pool.old.resting o n.image.items) orders.now v.items) }
    ensures stops { IfErr result (StopsBuild (IsPastLimit B.tells B.told pool.old.resting)
        (PoolRose B.faults pool.old pool.new) orders.now) }
    ensures alike { TellAlike B.told pool.old.resting pool.new.resting }
    ensures resting { length pool.new.resting ≡ length pool.old.resting }
    ensures ids { SameIds B.number pool.old pool.new }
    ensures lent { pool.new.lent ≡ pool.old.lent }
    ensures builds { faults_of B.faults pool.old ≤ faults_of B.faults pool.new }
{
    let mut newcomers = Vec::with_capacity(alloc, additions.len())?;
    for (place, order) in orders.iter().enumerate() {
        let image = image_of(alloc, pool, order)?;
        let pkg = copy_package(&additions[place])?;
        add(&mut newcomers, Newcomer { pkg, image })?;
    }
    Ok(newcomers)
}

/// The image that a builder of the pool makes for the order.
fn image_of<B: Builder>(
    alloc: Global,
    pool: &mut BuildPool<B>,
    order: &Order,
) -> Result<Vec<Entry>, PlanStop>
    requires resting { 0 < length pool.old.resting }
    ensures image { IfOk result
        (λ v. IsBuilt B.tells B.told pool.old.resting order.now v.items) }
    ensures stops { IfErr result (StopsOrder (IsPastLimit B.tells B.told pool.old.resting)
        (PoolRose B.faults pool.old pool.new) order.now) }
    ensures alike { TellAlike B.told pool.old.resting pool.new.resting }
    ensures resting { length pool.new.resting ≡ length pool.old.resting }
    ensures ids { SameIds B.number pool.old pool.new }
    ensures lent { pool.new.lent ≡ pool.old.lent }
    ensures builds { faults_of B.faults pool.old ≤ faults_of B.faults pool.new }
{
    match built_image(alloc, pool, order) {
        Ok(image) => Ok(image),
        Err(ImageStop::Failed) => Err(PlanStop::Build(order.id.try_clone()?)),
        Err(ImageStop::Many) => Err(PlanStop::Image(order.id.try_clone()?)),
        Err(ImageStop::Memory) => Err(PlanStop::Merge(Stop::Tree(TreeFault::Memory))),
    }
}

/// Puts a newcomer behind others.
fn add(newcomers: &mut Vec<Newcomer>, newcomer: Newcomer) -> Result<(), AllocError>
    ensures { OnOk result (newcomers.new.items ≡ newcomers.old.items ++ newcomer ∷ []) }
{
    newcomers.push(newcomer)?;
    Ok(())
}
