//! What the configuration of a tree says, which of its candidates are visible, and what it offers,
//! case by case, for tables of examples.
//!
//! Each line of its input is a case, whose fields stand apart by tabs: a word; for `offers` how many
//! flags may be flipped; the number of a call of the tree that fails, or 0; and then the objects of
//! the tree, each told by its kind, its bytes in hex and its path, as `- 6162 etc/p`. The profile is
//! that of `etc/portage/make.profile`. One line is printed for it, whose fields stand apart by tabs
//! too, and in which `\n` stands for a newline:
//!
//! - `profile`: what the profile and the user's files say, as `config.rt` tells it;
//! - `candidates`: which candidates of the repository are visible, as `candidates.rt` tells it;
//! - `offers`: what is offered, as `offers.rt` tells it.
//!
//! The program ends with status 1 at a line that is no case.
#![tactic(auto)]

mod candidates;
mod config;
mod faults;
mod keywords;
mod offers;
mod told;

use ask_lines::{
    answer_each, cut, escaped, exit_of, not_in_form, number_of, objects_of, small_number_of,
};
use std::alloc::Global;
use std::io;
use std::process::ExitCode;
use tree_mem::MemTree;

fn main(rt: HostRuntime) -> ExitCode {
    exit_of(answer_each(&rt, rt.alloc(), answer_line))
}

/// The line that is printed for a case.
fn answer_line(alloc: Global, line: &str) -> io::Result<String> {
    let text = answer(alloc, line)?;
    Ok(escaped(alloc, text.as_str())?)
}

fn answer(alloc: Global, line: &str) -> io::Result<String> {
    let (word, fields) = cut(line, '\t');
    match word {
        "profile" => of_config(alloc, fields),
        "candidates" => of_candidates(alloc, fields),
        "offers" => of_offers(alloc, fields),
        _ => Err(not_in_form()),
    }
}

fn of_config(alloc: Global, fields: &str) -> io::Result<String> {
    let mut tree = tree_of(alloc, fields)?;
    Ok(config::answer(alloc, &mut tree)?)
}

fn of_candidates(alloc: Global, fields: &str) -> io::Result<String> {
    let mut tree = tree_of(alloc, fields)?;
    Ok(candidates::answer(alloc, &mut tree)?)
}

fn of_offers(alloc: Global, fields: &str) -> io::Result<String> {
    let (flips, rest) = cut(fields, '\t');
    let flips = small_number_of(flips)?;
    let mut tree = tree_of(alloc, rest)?;
    Ok(offers::answer(alloc, &mut tree, flips)?)
}

/// The tree of these fields, of which one call fails.
fn tree_of(alloc: Global, fields: &str) -> io::Result<MemTree> {
    let (call, objects) = cut(fields, '\t');
    let mut tree = MemTree::new(alloc, objects_of(alloc, objects)?).map_err(|_| not_in_form())?;
    tree.fail_at(number_of(call)?)?;
    Ok(tree)
}
