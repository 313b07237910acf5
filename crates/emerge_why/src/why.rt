ghost use Rattle.std.specs.Prelude.{IfOk, string_bytes};
ghost use Rattle.emerge_why.specs.Told.{IsTold};

use crate::candidates::{push_backtrack, push_no_candidate, push_no_solution};
use crate::files::push_text;
use crate::images::{push_build, push_collision, push_image};
use crate::limits::{push_device, push_limit, push_memory, push_output, push_part};
use crate::orders::{push_cycle, push_no_order};
use crate::packages::{push_broken, push_database, push_journal};
use crate::plans::push_refused;
use crate::telling::told;
use crate::usage::push_usage;
use crate::words::root_of;
use merge_report::Status;
use std::alloc::{AllocError, Global};

/// Why a run of these words ended with this status, and what to do next: some lines of plain words,
/// or no text where all is well. `line` is the line that a text is refused for, where it is known.
pub fn why_refused(
    alloc: Global,
    words: &[String],
    status: &Status,
    line: Option<&str>,
) -> Result<String, AllocError>
    ensures { IfOk result (λ t. IsTold (string_bytes t)) }
{
    let lines = lines_of(alloc, words, status, line)?;
    told(alloc, &lines)
}

fn lines_of(
    alloc: Global,
    words: &[String],
    status: &Status,
    line: Option<&str>,
) -> Result<Vec<String>, AllocError> {
    let mut lines = Vec::new(alloc);
    push_why(alloc, &mut lines, words, status, line)?;
    Ok(lines)
}

fn push_why(
    alloc: Global,
    lines: &mut Vec<String>,
    words: &[String],
    status: &Status,
    line: Option<&str>,
) -> Result<(), AllocError> {
    let root = root_of(words);
    match status {
        Status::Ok { .. } => Ok(()),
        Status::Usage { fault } => push_usage(alloc, lines, words, fault),
        Status::BadText { path, line: number } => {
            push_text(alloc, lines, words, path.text(), *number, line)
        }
        Status::BadDatabase(fault) => push_database(alloc, lines, root, fault),
        Status::BadJournal(fault) => push_journal(alloc, lines, root, *fault),
        Status::Inconsistent(broken) => push_broken(alloc, lines, broken),
        Status::NoCandidate { atom, reasons } => {
            push_no_candidate(alloc, lines, words, atom, reasons)
        }
        Status::NoSolution { dead } => push_no_solution(alloc, lines, dead),
        Status::BacktrackLimit { refuted, dead } => {
            push_backtrack(alloc, lines, refuted.len(), dead)
        }
        Status::PlanRefused(fault) => push_refused(alloc, lines, fault),
        Status::BuildCycle { packages } => push_cycle(alloc, lines, packages),
        Status::NoOrder(fault) => push_no_order(alloc, lines, fault),
        Status::Collision(collision) => push_collision(alloc, lines, root, collision),
        Status::BadImage(bad) => push_image(alloc, lines, words, bad),
        Status::BuildFailed { package } => push_build(alloc, lines, words, package),
        Status::DeviceFault => push_device(alloc, lines),
        Status::OutputFault => push_output(alloc, lines),
        Status::Limit { quantity } => push_limit(alloc, lines, *quantity),
        Status::Memory => push_memory(alloc, lines),
        Status::NotBuilt { what } => push_part(alloc, lines, *what),
    }
}
