//! What the calls on plans, on what to install and on a tree's database answer, case by case, for
//! tables of examples.
//!
//! Each line of its input is a case: a word, and its parts, each behind a tab. In them and in what
//! is printed `\n` stands for a newline. A line is printed for each case:
//!
//! - `text PLAN`: the plan of the text as it is printed, or the fault of the text;
//! - `link OFFERED PLAN`: the plan that the text stands for;
//! - `judge INSTALLED OFFERED PLAN`: the plan, if it is accepted;
//! - `repair INSTALLED OFFERED PLAN`: whether the plan repairs the packages;
//! - `check INSTALLED GROUP ..`: whether the plan of these groups is accepted;
//! - `resolve HOW LIMIT WANTED LINE ..`: the choice, or those that were tried in vain;
//! - `walk HOW WANTED LINE ..`: the tree of choices, where it has at most 20;
//! - `universe INSTALLED CANDIDATE ..`: the lines of the universe that is made of these;
//! - `choose HOW LIMIT WANTED INSTALLED CANDIDATE ..`: the choice in such a universe, as `resolve`
//!   tells it;
//! - `read OBJECT ..`: the installed packages, or the fault of the database;
//! - `failing CALL OBJECT ..`: the same, where this call of the tree fails, counted from 1;
//! - `record OBJECT ..`: what the first package needs at run time and for its build, what it asks
//!   of its flags, its flags and those that are on, a bar between two;
//! - `written OBJECT ..`: the files that are written of the first package, a tab between two;
//! - `flags OBJECT ..`: the flags that are recorded of it.
//!
//! Packages are written as `reading.rt` says, with a comma between two; groups as `groups.rt` says,
//! the lines of a universe as `universes.rt`, candidates and the lines that are made as `made.rt`,
//! choices as `search.rt`, and the objects of a database as `trees.rt`. Of anything else it prints
//! `not in form`.
#![tactic(auto)]

mod answers;
mod checks;
mod databases;
mod groups;
mod linked;
mod made;
mod plans;
mod reading;
mod records;
mod refused;
mod search;
mod trees;
mod universes;

use ask_lines::{answer_each, cut, escaped, exit_of};
use std::alloc::Global;
use std::io;
use std::process::ExitCode;

fn main(rt: HostRuntime) -> ExitCode {
    exit_of(answer_each(&rt, rt.alloc(), answer_line))
}

/// The line that is printed for a case.
fn answer_line(alloc: Global, line: &str) -> io::Result<String> {
    match answer(alloc, line) {
        Some(text) => Ok(escaped(alloc, text.as_str())?),
        None => Ok(String::from_str(alloc, "not in form")?),
    }
}

fn answer(alloc: Global, line: &str) -> Option<String> {
    let (word, parts) = cut(line, '\t');
    match word {
        "text" => plans::text(alloc, parts),
        "link" => plans::link_text(alloc, parts),
        "judge" => plans::judge(alloc, parts),
        "repair" => checks::repair(alloc, parts),
        "check" => checks::check_groups(alloc, parts),
        "resolve" => search::resolve_lines(alloc, parts),
        "walk" => search::walk_lines(alloc, parts),
        "universe" => made::universe_lines(alloc, parts),
        "choose" => made::choose(alloc, parts),
        _ => of_database(alloc, word, parts),
    }
}

fn of_database(alloc: Global, word: &str, parts: &str) -> Option<String> {
    match word {
        "read" => databases::read(alloc, parts),
        "failing" => databases::read_failing(alloc, parts),
        "record" => records::record(alloc, parts),
        "written" => records::written(alloc, parts),
        "flags" => records::flags(alloc, parts),
        _ => None,
    }
}
