ghost use Rattle.std.specs.Prelude.{◌≡◌, ◌⊎◌, ◌<◌, ◌^◌, IsTrue, length, map, slice_get};
ghost use Rattle.std.specs.Option.{option_copied};
ghost use Rattle.merge_core.specs.Trail.{IsAtRest};
ghost use Rattle.run_turns.specs.Plans.{coming};
ghost use Rattle.emerge_run.specs.Merges.{MergesTask};
ghost use Rattle.emerge_run.specs.Package.{IsTask};
ghost use Rattle.emerge_run.specs.Collisions.{id_of_package, ids_with, owned_by};
ghost use Rattle.emerge_run.specs.Collisions.{status_of_collision};
ghost use Rattle.emerge_run.specs.Refusals.{Collides, CollidesAt, CollidesIn, IsOrNameless};
ghost use Rattle.emerge_run.specs.Refusals.{IsStatusOf, status_of_claim, status_of_plan_stop};
ghost use Rattle.emerge_run.specs.Refusals.{status_of_stop};

use crate::run::Ended;
use build_pool::{BuildPool, Builder};
use dep_atom::PackageId;
use file_tree::{Path, Quantity, Sink, Tree};
use merge_group::Stop;
use merge_report::{Collision, Status};
use merge_site::ClaimStop;
use plan_lives::{Group, Plan};
use run_plan::{Merged, PlanStop, Task, merge_plan};
use std::alloc::Global;
use vdb_record::Installed;

/// Merges the groups of a plan, and tells how that ended.
pub fn merge_ready<T: Tree, S: Sink, B: Builder>(
    alloc: Global,
    tree: T,
    out: S,
    mut pool: BuildPool<B>,
    opening: Vec<Installed>,
    plan: Plan,
    task: Task,
) -> Ended<T, S, BuildPool<B>>
    requires rest { IsTrue T.tells → IsAtRest (T.story tree).now.holds (T.story tree).now }
    requires task { IsTask T.tells (T.story tree).now.holds opening.items plan task.jobs.items
        task.book }
    requires resting { 0 < length pool.resting }
    ensures { MergesTask T.Tree S.Sink B.Builder opening.items plan task tree out pool result }
{
    let Merged {
        tree,
        sink,
        machine,
        end,
        history,
        acknowledged,
    } = merge_plan(alloc, tree, out, &mut pool, &opening, &plan, task);
    let status = status_of_end(&opening, plan.groups(), end);
    Ended {
        status,
        tree,
        out: sink,
        pool,
        opening,
        plan: Some(plan),
        machine,
        history,
        acknowledged,
    }
}

/// The status of the merge of a plan over these packages that ended so.
fn status_of_end(packages: &[Installed], plan: &[Group], end: Result<(), PlanStop>) -> Status
    requires { length plan.now < 2 ^ 32 }
    ensures { IsStatusOf (ids_with packages.now plan.now) (length plan.now) end result }
{
    match end {
        Ok(()) => Status::Ok {
            groups: plan.len() as u32,
        },
        Err(stop) => status_of_plan_stop(packages, plan, stop),
    }
}

fn status_of_plan_stop(packages: &[Installed], plan: &[Group], stop: PlanStop) -> Status
    ensures { IsOrNameless (status_of_plan_stop (ids_with packages.now plan.now) stop)
        (CollidesIn stop) result }
{
    match stop {
        PlanStop::Merge(stop) => status_of_stop(packages, plan, stop),
        PlanStop::Build(package) => Status::BuildFailed { package },
        PlanStop::Image(_) => Status::Limit {
            quantity: Quantity::Paths,
        },
    }
}

fn status_of_stop(packages: &[Installed], plan: &[Group], stop: Stop) -> Status
    ensures { IsOrNameless (status_of_stop (ids_with packages.now plan.now) stop)
        (CollidesAt stop) result }
{
    match stop {
        Stop::Output => Status::OutputFault,
        Stop::Image(bad) => Status::BadImage(bad),
        Stop::Claim(claim) => status_of_claim(packages, plan, claim),
        Stop::Limit => Status::Limit {
            quantity: Quantity::RecordBytes,
        },
        Stop::Tree(fault) => Status::from(fault),
    }
}

/// The status of a claim that was stopped so. What is removed is owned, and each path comes once, as
/// far as the tree tells: one that tells otherwise from look to look is told as want of memory. A
/// fault of the tree stops the merge, and no claim.
fn status_of_claim(packages: &[Installed], plan: &[Group], claim: ClaimStop) -> Status
    ensures { IsOrNameless (status_of_claim (ids_with packages.now plan.now) claim)
        (Collides claim) result }
{
    match claim {
        ClaimStop::Collision(collision) => status_of_collision(packages, plan, collision),
        ClaimStop::Image(bad) => Status::BadImage(bad),
        ClaimStop::Limit => Status::Limit {
            quantity: Quantity::Paths,
        },
        ClaimStop::Removal { .. } | ClaimStop::Overlap | ClaimStop::Tree(_) => Status::Memory,
    }
}

/// The status of a collision in the book, whose keys are the places of these packages, and behind
/// them of those that come with the plan.
fn status_of_collision(
    packages: &[Installed],
    plan: &[Group],
    collision: owner_book::Collision,
) -> Status
    ensures { (result ≡ status_of_collision (ids_with packages.now plan.now) collision)
        ⊎ (result ≡ Status.Memory) }
{
    match collision {
        owner_book::Collision::Owned { path, owner } => owned_by(
            path,
            owner_at(packages, plan, owner.number as usize),
        ),
        owner_book::Collision::Claimed { path, group } => {
            Status::Collision(Collision::Claimed { path, group })
        }
        owner_book::Collision::Ancestor { path, other } => {
            Status::Collision(Collision::Ancestor { path, other })
        }
        owner_book::Collision::Unowned { path } => Status::Collision(Collision::Unowned { path }),
    }
}

/// The package that a place stands for.
fn owner_at<'a>(packages: &'a [Installed], plan: &'a [Group], place: usize) -> Option<&'a PackageId>
    ensures { option_copied result ≡ slice_get (ids_with packages.now plan.now) place }
{
    if place < packages.len() {
        let package = &packages[place];
        return Some(&package.pkg.facts.id);
    }
    comer_at(plan, place - packages.len())
}

/// The package that comes with the plan at a place.
fn comer_at(plan: &[Group], place: usize) -> Option<&PackageId>
    ensures { option_copied result ≡ slice_get (map id_of_package (coming plan.now)) place }
{
    let mut left = place;
    for group in plan {
        if left < group.additions.len() {
            let package = &group.additions[left];
            return Some(&package.facts.id);
        }
        left -= group.additions.len();
    }
    None
}

/// The status of a path that the package owns.
fn owned_by(path: Path, owner: Option<&PackageId>) -> Status
    ensures { (result ≡ owned_by path (option_copied owner.entry))
        ⊎ (result ≡ Status.Memory) }
{
    let Some(owner) = owner else {
        return Status::Memory;
    };
    match owner.try_clone() {
        Ok(owner) => Status::Collision(Collision::Owned { path, owner }),
        Err(_) => Status::Memory,
    }
}
