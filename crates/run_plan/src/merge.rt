ghost use Rattle.std.specs.Prelude.{◌≡◌, ◌<◌, ◌^◌, [], Err, IsTrue, None, length};
ghost use Rattle.merge_core.specs.Trail.{IsAtRest};
ghost use Rattle.plan_law.specs.Plans.{WaitsForEarlier};
ghost use Rattle.run_turns.specs.Plans.{AreJobs};
ghost use Rattle.run_plan.specs.Courses.{IsCourse};
ghost use Rattle.run_plan.specs.Merges.{MergesPlan};

use crate::closing::close;
use crate::preparing::{Course, course_of};
use crate::stop::PlanStop;
use crate::turns::merge_groups;
use build_pool::{BuildPool, Builder};
use file_tree::{Sink, Tree, TreeFault};
use merge_core::Core;
use merge_group::{Stop, open_run};
use owner_book::OwnerBook;
use plan_lives::{Group, Plan};
use run_turns::Job;
use std::alloc::Global;
use vdb_record::Installed;

/// What the run of a plan takes beside the plan.
#[derive(Drop)]
pub struct Task {
    /// Of each group in turn.
    pub jobs: Vec<Job>,
    /// Who owns what in the tree; nothing is claimed.
    pub book: OwnerBook,
}

/// What the run of a plan gives back.
#[derive(Drop)]
pub struct Merged<T, S> {
    pub tree: T,
    pub sink: S,
    /// The machine as the run left it, where its site was opened.
    pub machine: Option<Core>,
    pub end: Result<(), PlanStop>,
    /// The groups that are in the tree for good, by their numbers, in order.
    pub history: Vec<u32>,
    /// The groups whose line was written, in order.
    pub acknowledged: Vec<u32>,
}

/// Merges the groups of a plan one after another into a tree at rest with these packages, writes the
/// line of each, and clears the journal. The first stop ends the run.
pub fn merge_plan<T: Tree, S: Sink, B: Builder>(
    alloc: Global,
    mut tree: T,
    sink: S,
    pool: &mut BuildPool<B>,
    installed: &[Installed],
    plan: &Plan,
    task: Task,
) -> Merged<T, S>
    requires rest { IsTrue T.tells → IsAtRest (T.story tree).now.holds (T.story tree).now }
    requires unclaimed { task.book.claims ≡ [] }
    requires jobs { AreJobs plan.now task.jobs.items }
    requires resting { 0 < length pool.old.resting }
    ensures { MergesPlan T.Tree S.Sink B.Builder installed.now plan.now task tree sink pool.old
        pool.new result }
{
    let groups = plan.groups();
    match course_of(alloc, &mut tree, installed, groups, &task.jobs) {
        Ok(course) => run_course(alloc, tree, sink, pool, installed, groups, task, course),
        Err(fault) => unmerged(alloc, tree, sink, fault),
    }
}

/// Merges the groups of a plan over a tree at rest, with what was made for it.
fn run_course<T: Tree, S: Sink, B: Builder>(
    alloc: Global,
    tree: T,
    sink: S,
    pool: &mut BuildPool<B>,
    installed: &[Installed],
    plan: &[Group],
    task: Task,
    course: Course,
) -> Merged<T, S>
    requires rest { IsTrue T.tells → IsAtRest (T.story tree).now.holds (T.story tree).now }
    requires unclaimed { task.book.claims ≡ [] }
    requires jobs { AreJobs plan.now task.jobs.items }
    requires earlier { WaitsForEarlier plan.now }
    requires small { length plan.now < 2 ^ 31 }
    requires resting { 0 < length pool.old.resting }
    requires course { IsCourse T.tells (T.story tree).now.holds installed.now plan.now
        task.jobs.items course }
    ensures { MergesPlan T.Tree S.Sink B.Builder installed.now plan.now task tree sink pool.old
        pool.new result }
{
    let Task { jobs, book } = task;
    let Course {
        places,
        groups,
        mut progress,
    } = course;
    match open_run(alloc, tree, sink, book, groups) {
        Ok(mut site) => {
            let end = merge_groups(alloc, &mut site, pool, plan, &jobs, &places, &mut progress);
            close(alloc, site, end, progress)
        }
        Err((tree, sink)) => unmerged(alloc, tree, sink, TreeFault::Memory),
    }
}

/// The end of a run that never began.
fn unmerged<T: Tree, S: Sink>(alloc: Global, tree: T, sink: S, fault: TreeFault) -> Merged<T, S>
    ensures tree { result.tree ≡ tree }
    ensures sink { result.sink ≡ sink }
    ensures machine { result.machine ≡ None }
    ensures end { result.end ≡ Err (PlanStop.Merge (Stop.Tree fault)) }
    ensures history { result.history.items ≡ [] }
    ensures acknowledged { result.acknowledged.items ≡ [] }
{
    Merged {
        tree,
        sink,
        machine: None,
        end: Err(PlanStop::Merge(Stop::Tree(fault))),
        history: Vec::new(alloc),
        acknowledged: Vec::new(alloc),
    }
}
