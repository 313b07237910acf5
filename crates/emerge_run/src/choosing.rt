ghost use Rattle.std.specs.Prelude.{◌≡◌, [], IfOk, IsErrOf, map, string_bytes};
ghost use Rattle.emerge_find.specs.Shapes.{IsInShape};
ghost use Rattle.emerge_run.specs.Choosing.{ChoosesWork, FindsWork};
ghost use Rattle.emerge_run.specs.Refusals.{packages_beside, packages_with, status_of};
ghost use Rattle.emerge_run.specs.Refusals.{status_of_opening};
ghost use Rattle.emerge_run.specs.Tasks.{IsPrepared};

use crate::prepare::jobs_of;
use crate::words::read_request;
use emerge_choose::Chosen;
use emerge_find::{Asked, Found, NoPlan, find_plan};
use file_tree::{Quantity, Tree};
use merge_report::{Part, Status};
use owner_book::OwnerBook;
use plan_lives::Plan;
use recovery::recover;
use run_opening::OpeningFault;
use run_plan::Task;
use std::alloc::{AllocError, Global};
use vdb_record::Installed;

/// What a run finds before it merges anything.
#[derive(Drop)]
pub struct Seen {
    /// The installed packages, where the run came to read them.
    pub opening: Vec<Installed>,
    /// What is to be done, or how the run ends without it.
    pub answer: Result<Work, Status>,
}

/// What a run is to do with the plan that it has found.
#[derive(Drop)]
pub enum Work {
    /// To show its text.
    Show { text: String, plan: Plan },
    /// Nothing: it has no group.
    Rest { plan: Plan },
    /// To merge its groups.
    Merge { plan: Plan, task: Task },
}

/// Recovers the tree, and finds what the words choose in it; or answers how the run ends without it.
pub fn choose<T: Tree>(alloc: Global, words: &[String], tree: &mut T) -> Seen
    ensures { ChoosesWork T.Tree (map string_bytes words.now) tree.old tree.new result }
{
    match read_request(alloc, words) {
        Ok(asked) => match recover(alloc, tree) {
            Ok(_) => find_work(alloc, asked, tree),
            Err(fault) => ended(alloc, Status::from(fault)),
        },
        Err(status) => ended(alloc, status),
    }
}

/// A run that ends before it reads the installed packages.
fn ended(alloc: Global, status: Status) -> Seen
    ensures answer { IsErrOf result.answer status }
    ensures opening { result.opening.items ≡ [] }
{
    Seen {
        opening: Vec::new(alloc),
        answer: Err(status),
    }
}

/// Finds what is asked for in a recovered tree.
fn find_work<T: Tree>(alloc: Global, asked: Asked, tree: &mut T) -> Seen
    ensures { FindsWork T.Tree asked tree.old tree.new result }
{
    let pretend = asked.pretend;
    match find_plan(alloc, tree, asked) {
        Ok(found) => {
            let Found {
                packages,
                book,
                chosen,
                ..
            } = found;
            match work_of(alloc, chosen, book, pretend) {
                Ok(work) => Seen {
                    opening: packages,
                    answer: Ok(work),
                },
                Err(_) => over(packages, Status::Memory),
            }
        }
        Err(end) => unplanned(alloc, end),
    }
}

/// What is to be done with what is chosen.
fn work_of(
    alloc: Global,
    chosen: Chosen,
    book: OwnerBook,
    pretend: bool,
) -> Result<Work, AllocError>
    requires shape { IsInShape chosen }
    ensures work { IfOk result (IsPrepared chosen book pretend) }
{
    let Chosen { text, plan } = chosen;
    if pretend {
        let text = text.print(alloc)?;
        return Ok(Work::Show { text, plan });
    }
    if plan.groups().is_empty() {
        return Ok(Work::Rest { plan });
    }
    let jobs = jobs_of(alloc, &text.groups, plan.groups())?;
    let task = Task { jobs, book };
    Ok(Work::Merge { plan, task })
}

/// How a run ends that has no plan.
fn unplanned(alloc: Global, end: NoPlan) -> Seen
    ensures answer { IsErrOf result.answer (status_of end) }
    ensures opening { result.opening.items ≡ packages_with end }
{
    match end {
        NoPlan::Offers(fault) => ended(alloc, Status::from(fault)),
        NoPlan::Opening(fault) => unopened(alloc, fault),
        NoPlan::Text { path, line } => ended(alloc, Status::BadText { path, line }),
        NoPlan::Limit => ended(
            alloc,
            Status::Limit {
                quantity: Quantity::Groups,
            },
        ),
        NoPlan::NoCandidate {
            atom,
            reasons,
            packages,
        } => over(packages, Status::NoCandidate { atom, reasons }),
        NoPlan::NoSolution { dead, packages } => over(packages, Status::NoSolution { dead }),
        NoPlan::BacktrackLimit {
            refuted,
            dead,
            packages,
        } => over(packages, Status::BacktrackLimit { refuted, dead }),
        NoPlan::BuildCycle { cycle, packages } => {
            over(packages, Status::BuildCycle { packages: cycle })
        }
        NoPlan::NoOrder { fault, packages } => over(packages, Status::NoOrder(fault)),
        NoPlan::Refused { fault, packages } => over(packages, Status::PlanRefused(fault)),
        NoPlan::NotPlanned { packages } => over(packages, Status::NotBuilt { what: Part::Result }),
        NoPlan::Tree(fault) => ended(alloc, Status::from(fault)),
    }
}

/// How a run ends that can't begin with what is installed.
fn unopened(alloc: Global, fault: OpeningFault) -> Seen
    ensures answer { IsErrOf result.answer (status_of_opening fault) }
    ensures opening { result.opening.items ≡ packages_beside fault }
{
    match fault {
        OpeningFault::Database(fault) => ended(alloc, Status::from(fault)),
        OpeningFault::Inconsistent { fault, packages } => {
            over(packages, Status::Inconsistent(fault))
        }
    }
}

/// A run that ends so over these packages.
fn over(opening: Vec<Installed>, status: Status) -> Seen
    ensures answer { IsErrOf result.answer status }
    ensures opening { result.opening ≡ opening }
{
    Seen {
        opening,
        answer: Err(status),
    }
}
