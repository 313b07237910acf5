//! Runs over trees in memory: each line of its input is a case, which it answers by one line.
//!
//! The fields of a line stand a tab apart. In a word of the command, a path and a text of an answer a
//! backslash, a tab and a line feed are written `\\`, `\t` and `\n`. A kind is `-` for a file, `x` for
//! one that can be run, and `l` for a link; bytes are in hex.
//!
//! The first field of a case is `run` or `recover`. The others, any number of them in any order:
//!
//! | field | what it says |
//! |---|---|
//! | `word WORD` | the next word of the command |
//! | `tree KIND BYTES PATH` | an object of the tree |
//! | `image PACKAGE KIND BYTES PATH` | an entry of the image of `category/package-version` |
//! | `stop CALL`, `fail CALL` | this call of the tree fails and all later ones, or it alone; from 1 |
//! | `write CALL` | this write of the output fails |
//! | `broken` | each build fails |
//! | `watch PATH` | the answer is to tell whether this path was changed since the last sync |
//!
//! A run is answered by `code NUMBER`, `said TEXT`, `history GROUPS`, `acknowledged GROUPS`, `resting
//! COUNT` of the builders that the pool has at rest, and `faults COUNT` of all builders; a recovery by
//! `completed GROUPS` or `refused WHY`. Behind these come `calls COUNT` and `refusals COUNT` of the tree,
//! the refusals being calls that failed for want of memory, `touched PATH` for each watched path that was
//! changed since the last sync, whether it holds something or not, and the tree's objects, as in a case.
//!
//! A line that is no case, or for which memory runs out, is answered by `no case`.
#![tactic(auto)]

mod answers;
mod cases;
mod fields;
mod image_builder;
mod packed;

use crate::answers::{answer_recovery, answer_run};
use crate::fields::are_known;
use std::alloc::{AllocError, Global};
use std::io;
use std::io::Write;
use std::process::ExitCode;

fn main(rt: HostRuntime) -> ExitCode {
    match answer_lines(&rt, rt.alloc()) {
        Ok(()) => ExitCode::SUCCESS,
        Err(_) => ExitCode::FAILURE,
    }
}

/// Answers each line of the input.
fn answer_lines<R: Input + Print>(rt: &R, alloc: Global) -> io::Result<()> {
    let mut out = io::writer(rt);
    for line in rt.lines(alloc) {
        let text = answer(alloc, line?.as_str())?;
        out.write_all(text.as_bytes())?;
    }
    Ok(())
}

/// The line that answers this one.
fn answer(alloc: Global, line: &str) -> Result<String, AllocError> {
    match answer_case(alloc, line) {
        Some(mut text) => {
            text.push('\n')?;
            Ok(text)
        }
        None => String::from_str(alloc, "no case\n"),
    }
}

/// The answer to a case; none where the line is no case, or memory runs out.
fn answer_case(alloc: Global, line: &str) -> Option<String> {
    let (kind, fields) = line.split_once('\t').unwrap_or((line, ""));
    if !are_known(fields) {
        return None;
    }
    match kind {
        "run" => answer_run(alloc, fields),
        "recover" => answer_recovery(alloc, fields),
        _ => None,
    }
}
