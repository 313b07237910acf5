ghost use Rattle.std.specs.Prelude.{◌≡◌, ◌<◌, ◌≤◌, ◌⊎◌, [], ℕ, IsTrue, List, None, false, length};
ghost use Rattle.std.specs.Prelude.{map, string_bytes, true};
ghost use Rattle.file_tree.specs.Disk.{Map, Rose};
ghost use Rattle.vdb_law.specs.Packages.{Installed};
ghost use Rattle.file_tree.specs.Output.{Wrote};
ghost use Rattle.law_run.specs.Ends.{BeginsWith};
ghost use Rattle.merge_report.specs.Last.{IsEnd};
ghost use Rattle.emerge_run.specs.Commands.{RunsCommand};
ghost use Rattle.emerge_run.specs.Headline.{Headline, TurnsOn};

use crate::choosing::{Seen, Work, choose};
use crate::merging::merge_ready;
use crate::showing::show_plan;
use build_pool::{BuildPool, Builder};
use file_tree::{Sink, Tree};
use merge_core::Core;
use merge_report::{Status, finish};
use plan_lives::Plan;
use std::alloc::Global;
use vdb_record::Installed;

/// What a run gives back: how it ended, what it was lent, and its groups.
#[derive(Drop)]
pub struct Ended<T, S, P> {
    pub status: Status,
    pub tree: T,
    pub out: S,
    pub pool: P,
    /// The packages that were installed in the recovered tree, in byte order of their folders; none
    /// where the run ended before it had read them, or for a plan of too many groups.
    pub opening: Vec<Installed>,
    /// The plan, where one was found and accepted.
    pub plan: Option<Plan>,
    /// The machine as the merge left it, where there was one.
    pub machine: Option<Core>,
    /// The groups that are in the tree for good, in order.
    pub history: Vec<u32>,
    /// The groups whose line was written, in order.
    pub acknowledged: Vec<u32>,
}

/// One command, from its words to its last line.
///
/// The words are those of the whole product; what is done today is the merge of what atoms match, and
/// of a plan that stands in a file. First an interrupted merge is completed or dropped. Then the
/// configuration, the repository and the installed packages are read, and the first good choice is
/// taken: its changes come in groups of what has to come together, each behind those that it waits
/// for, or, where the check refuses these, in one group for each level of what is built with what. Or
/// the file's plan is checked. The groups are merged one after another, or the plan is shown where the
/// words say `--pretend`. Of each group the images are built, the files of what comes are put to their
/// paths, and its record below `var/db/pkg`; what goes leaves with its record, and with its paths that
/// don't come anew. The line of a group comes after all of it is synced, and last the journal is
/// cleared. Want of memory may be answered in place of anything.
pub fn emerge<T: Tree + Send, S: Sink + Send, B: Builder + Send>(
    alloc: Global,
    words: &[String],
    tree: T,
    out: S,
    pool: BuildPool<B>,
) -> Ended<T, S, BuildPool<B>>
    requires resting { 0 < length pool.resting }

    // From a disk whose packages go together, and which keeps what they recorded, a crash at any
    // moment recovers to such a disk: with the packages after a run of the plan that comes back.
    ensures headline { IsTrue T.tells → (m : Map) (ps : List Installed) (flags : List (List ℕ)) →
        TurnsOn m flags → BeginsWith flags (T.story tree).now m ps →
        Headline (map string_bytes words.now) flags m ps result.plan (T.story tree)
        (T.story result.tree) result.history.items result.status }

    // From any disk: the answer, what a crash leaves and the tree holds, what is written with the
    // last line, and what comes back.
    ensures run { RunsCommand T.Tree S.Sink B.Builder true (map string_bytes words.now) tree out
        pool result }
{
    run_sound::runs_leave_sound_trees();
    emerge_find::found_plans_are_fit();
    let run = attempt(alloc, words, tree, out, pool);
    finished(alloc, run)
}

/// The run up to its last line.
fn attempt<T: Tree, S: Sink, B: Builder>(
    alloc: Global,
    words: &[String],
    mut tree: T,
    mut out: S,
    pool: BuildPool<B>,
) -> Ended<T, S, BuildPool<B>>
    requires { 0 < length pool.resting }
    ensures { RunsCommand T.Tree S.Sink B.Builder false (map string_bytes words.now) tree out pool
        result }
{
    let Seen { opening, answer } = choose(alloc, words, &mut tree);
    match answer {
        Ok(Work::Merge { plan, task }) => {
            merge_ready(alloc, tree, out, pool, opening, plan, task)
        }
        Ok(Work::Show { text, plan }) => {
            let status = show_plan(&mut out, text.as_str());
            unmerged(alloc, tree, out, pool, opening, Some(plan), status)
        }
        Ok(Work::Rest { plan }) => {
            let status = Status::Ok { groups: 0 };
            unmerged(alloc, tree, out, pool, opening, Some(plan), status)
        }
        Err(status) => unmerged(alloc, tree, out, pool, opening, None, status),
    }
}

/// A run that merges nothing.
fn unmerged<T, S, P>(
    alloc: Global,
    tree: T,
    out: S,
    pool: P,
    opening: Vec<Installed>,
    plan: Option<Plan>,
    status: Status,
) -> Ended<T, S, P>
    ensures ended { result ≡ record {
      status = status;
      tree = tree;
      out = out;
      pool = pool;
      opening = opening;
      plan = plan;
      machine = None;
      history = result.history;
      acknowledged = result.acknowledged;
    } }
    ensures history { result.history.items ≡ [] }
    ensures acknowledged { result.acknowledged.items ≡ [] }
{
    Ended {
        status,
        tree,
        out,
        pool,
        opening,
        plan,
        machine: None,
        history: Vec::new(alloc),
        acknowledged: Vec::new(alloc),
    }
}

/// The run with its last line.
fn finished<T, S: Sink, P>(alloc: Global, run: Ended<T, S, P>) -> Ended<T, S, P>
    ensures rest { result ≡ record run { status = result.status; out = result.out } }
    ensures status { (result.status ≡ run.status) ⊎ ((result.status ≡ Status.Memory) ⊎
        ((result.status ≡ Status.OutputFault) × Rose (S.faults run.out) (S.faults result.out))) }
    ensures device { run.status ≡ Status.DeviceFault → result.status ≡ Status.DeviceFault }
    ensures written { IsTrue S.tells → Wrote
        (IsEnd (Rose (S.faults run.out) (S.faults result.out)) run.status result.status)
        (S.written run.out) (S.written result.out) }
    ensures count { S.faults run.out ≤ S.faults result.out }
{
    let Ended {
        status,
        tree,
        mut out,
        pool,
        opening,
        plan,
        machine,
        history,
        acknowledged,
    } = run;
    let status = finish(alloc, &mut out, status);
    Ended {
        status,
        tree,
        out,
        pool,
        opening,
        plan,
        machine,
        history,
        acknowledged,
    }
}
