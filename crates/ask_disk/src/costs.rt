//! What claims, groups and recoveries cost, by their numbers of paths.
//!
//! A row of the table has the milliseconds of a claim of so many paths beside as many owned ones, of
//! a whole group that places so many empty files, and of a recovery of that group, each with the
//! calls that were made of the tree. That tree keeps nothing, so the time is that of the journal, the
//! machine and the book alone.

use crate::loads::{book_of, one_group, turn_of, wishes_of};
use crate::work::{claim, merge, open_tree, recovered};
use std::alloc::Global;
use std::io;
use std::rt::Clock;
use std::time::Instant;

/// The head of the table.
pub const HEAD: &str =
    "| paths | claim, ms | group, ms | calls | recovery, ms | calls |\n|---|---|---|---|---|---|\n";

/// The row of so many paths.
pub fn row_of<R: Clock>(rt: &R, alloc: Global, paths: u32) -> io::Result<String> {
    let claim = claim_time(rt, alloc, paths)?;
    let (group, group_calls) = group_time(rt, alloc, paths)?;
    let (recovery, calls) = recovery_time(rt, alloc, paths)?;
    let row = format!(in alloc;
        "| {paths} | {claim} | {group} | {group_calls} | {recovery} | {calls} |\n"
    )?;
    Ok(row)
}

/// The milliseconds of a claim.
fn claim_time<R: Clock>(rt: &R, alloc: Global, paths: u32) -> io::Result<u128> {
    let mut book = book_of(alloc, paths)?;
    let wishes = wishes_of(alloc, paths)?;
    let began = Instant::now(rt)?;
    claim(alloc, &mut book, wishes)?;
    Ok(began.elapsed(rt)?.as_millis())
}

/// The milliseconds of a group's merge, and the calls that it made.
fn group_time<R: Clock>(rt: &R, alloc: Global, paths: u32) -> io::Result<(u128, u64)> {
    let turn = turn_of(alloc, paths)?;
    let book = book_of(alloc, paths)?;
    let groups = one_group(alloc)?;
    let began = Instant::now(rt)?;
    let calls = merge(alloc, turn, book, groups)?;
    Ok((began.elapsed(rt)?.as_millis(), calls))
}

/// The milliseconds of a recovery of the group, and the calls that it made.
fn recovery_time<R: Clock>(rt: &R, alloc: Global, paths: u32) -> io::Result<(u128, u64)> {
    let tree = open_tree(alloc, paths)?;
    let began = Instant::now(rt)?;
    let calls = recovered(alloc, tree)?;
    Ok((began.elapsed(rt)?.as_millis(), calls))
}
