ghost use Rattle.std.specs.Prelude.{◌≡◌, ◌≤◌, ℕ, List, IsErrOf, IsTrue, Some};
ghost use Rattle.file_tree.specs.Disk.{Rose};
ghost use Rattle.file_tree.specs.declared.fault.TreeFault.TheVariants as trees;
ghost use Rattle.merge_group.specs.Runs.{IsOver};
ghost use Rattle.merge_group.specs.Turns.{AreFirst};
ghost use Rattle.merge_group.specs.Went.{WentWith};
ghost use Rattle.merge_group.specs.declared.stop.Stop.TheVariants as merges;
ghost use Rattle.merge_group.specs.declared.turn.Turn.{Turn};
ghost use Rattle.run_plan.specs.Ends.{ClosesAs, build_of, joined_end};
ghost use Rattle.run_plan.specs.Runs.{merge_end};

use crate::merge::Merged;
use crate::preparing::Progress;
use crate::stop::PlanStop;
use file_tree::{Sink, Tree};
use merge_group::{Closed, Stop, close_run};
use merge_site::Site;
use std::alloc::Global;

/// Clears the journal of a run that ended so.
pub(crate) fn close<T: Tree, S: Sink>(
    alloc: Global,
    site: Site<T, S>,
    end: Result<(), PlanStop>,
    progress: Progress,
) -> Merged<T, S>
    ensures went { (turns : List Turn) (history acknowledged : List ℕ) → IsOver T.tells
        (T.story site.opened).now.holds turns history acknowledged (merge_end tt end) site →
        IsTrue T.tells →
        WentWith (AreFirst (T.story site.opened).now.holds site.opened_book site.groups turns)
        (T.story site.opened) (T.story result.tree) history (merge_end tt result.end) }
    ensures rest { result ≡ record result {
      sink = site.sink;
      machine = Some site.keeping;
      history = progress.history;
      acknowledged = progress.acknowledged;
    } }
    ensures end { ClosesAs end result.end }
    ensures count { T.faults site.tree ≤ T.faults result.tree }
    ensures rose { IsErrOf result.end (PlanStop.Merge (merges.Tree trees.Failed)) →
        (¬ IsErrOf end (PlanStop.Merge (merges.Tree trees.Failed))) →
        Rose (T.faults site.tree) (T.faults result.tree) }
{
    let (merge, build) = parted(end);
    let Closed {
        tree,
        sink,
        machine,
        end,
    } = close_run(alloc, site, merge);
    let Progress {
        history,
        acknowledged,
        ..
    } = progress;
    Merged {
        tree,
        sink,
        machine: Some(machine),
        end: joined(end, build),
        history,
        acknowledged,
    }
}

/// The end of the merge, and a stop of a build beside it.
fn parted(end: Result<(), PlanStop>) -> (Result<(), Stop>, Option<PlanStop>)
    ensures merge { result.0 ≡ merge_end tt end }
    ensures build { result.1 ≡ build_of end }
{
    match end {
        Ok(()) => (Ok(()), None),
        Err(PlanStop::Merge(stop)) => (Err(stop), None),
        Err(PlanStop::Build(id)) => (Ok(()), Some(PlanStop::Build(id))),
        Err(PlanStop::Image(id)) => (Ok(()), Some(PlanStop::Image(id))),
    }
}

/// The end of a run whose merge ended so, beside a stop of a build.
fn joined(end: Result<(), Stop>, build: Option<PlanStop>) -> Result<(), PlanStop>
    ensures { result ≡ joined_end end build }
{
    match end {
        Err(stop) => Err(PlanStop::Merge(stop)),
        Ok(()) => match build {
            Some(stop) => Err(stop),
            None => Ok(()),
        },
    }
}
