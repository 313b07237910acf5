//! What the crates that speak of the disk answer: texts, paths, orders, the tree and the sink in
//! memory, the journal's records, the claims of an ownership book, the steps of the machine, the
//! events of a site, whole runs of groups, and recoveries.
//!
//! Each line of its input is a question, whose fields stand apart by tabs, and it prints one line
//! for each. Bytes are told in hex. An object is told by its kind (`-` a file, `x` one that can be
//! run, `l` a link), its bytes and its path, as `- 6162 etc/p`. Where paths or objects stand in one
//! field, ` -> ` is between two, which no path has in it. The first field says what is asked:
//!
//! | first field | what follows | answer |
//! |---|---|---|
//! | `bytes` | bytes | for each `d`, `l` or `.`: a digit, a small letter, or neither |
//! | `text` | two texts | how the first one's copy compares to the second |
//! | `path` | the bytes of a text | the path, or its first fault |
//! | `above` | two paths | whether the first is above the other |
//! | `digest` | bytes | their digest |
//! | `name` | `gate`, `record`, `token` or `stage`, a group, an index | that path in the journal |
//! | `decode` | bytes | the record, or its first fault |
//! | `encode`, `recode` | a record | its bytes; what is read of these |
//! | `order` | a category, a name and version | the package of a copy of that order |
//! | `tree`, `sink` | steps | the answer of each (see `trees.rt`, `sinks.rt`) |
//! | `core` | steps of the machine and their groups | what each is told (see `machine.rt`) |
//! | `book`, `events`, `one`, `two`, `recover` | a case | what becomes of it (see `cases.rt`) |
//!
//! A record is told by its group, then `remove PATH`, then `place KIND LENGTH DIGEST PATH`. The
//! program ends with status 1 at a line that is none of these.
//!
//! With numbers of paths as its arguments it reads nothing, and prints a table of what claims, groups
//! and recoveries cost (see `costs.rt`).
#![tactic(auto)]

mod books;
mod cases;
mod costs;
mod events;
mod loads;
mod machine;
mod openings;
mod orders;
mod outcomes;
mod records;
mod recoveries;
mod runs;
mod sinks;
mod sites;
mod still_tree;
mod texts;
mod trees;
mod work;

use ask_lines::{answer_each, cut, exit_of, not_in_form};
use std::alloc::Global;
use std::io::Write;
use std::process::ExitCode;
use std::rt::{Clock, Env};
use std::{env, io};

fn main(rt: HostRuntime) -> ExitCode {
    exit_of(run(&rt, rt.alloc()))
}

/// Prints what the numbers of its arguments cost, or else what is answered to its input.
fn run<R: Env + Input + Print + Clock + AllocGlobal>(rt: &R, alloc: Global) -> io::Result<()> {
    if env::args(rt)?.skip(1).next().is_some() {
        print_costs(rt, alloc)
    } else {
        answer_each(rt, alloc, answer)
    }
}

/// Prints a table with a row for each argument.
fn print_costs<R: Env + Print + Clock + AllocGlobal>(rt: &R, alloc: Global) -> io::Result<()> {
    io::writer(rt).write_all(costs::HEAD.as_bytes())?;
    for word in env::args(rt)?.skip(1) {
        if let Ok(paths) = word.as_str().parse::<u32>() {
            let row = costs::row_of(rt, alloc, paths)?;
            io::writer(rt).write_all(row.as_bytes())?;
        }
    }
    Ok(())
}

/// What is answered to a question.
fn answer(alloc: Global, line: &str) -> io::Result<String> {
    let (asked, rest) = cut(line, '\t');
    match asked {
        "bytes" => texts::kinds(alloc, rest),
        "text" => texts::order(alloc, rest),
        "path" => texts::path(alloc, rest),
        "above" => texts::above(alloc, rest),
        "digest" => records::digest(alloc, rest),
        "name" => records::name(alloc, rest),
        "decode" => records::decoded(alloc, rest),
        "encode" => records::encoded(alloc, rest),
        "recode" => records::recoded(alloc, rest),
        _ => answer_on_trees(alloc, asked, rest),
    }
}

/// What is answered to a question about orders, trees or groups.
fn answer_on_trees(alloc: Global, asked: &str, rest: &str) -> io::Result<String> {
    match asked {
        "order" => orders::order(alloc, rest),
        "tree" => trees::answers(alloc, rest),
        "sink" => sinks::answers(alloc, rest),
        "core" => machine::answer(alloc, rest),
        "book" => books::answer(alloc, rest),
        "events" => sites::answer(alloc, rest),
        "one" => runs::one(alloc, rest),
        "two" => runs::two(alloc, rest),
        "recover" => recoveries::answer(alloc, rest),
        _ => Err(not_in_form()),
    }
}
