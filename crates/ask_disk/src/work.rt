//! The work that is timed: a claim, a group and a recovery.

ghost use Rattle.std.specs.Prelude.{◌≡◌, [], IfOk, None, false, length};
ghost use Rattle.merge_group.specs.Runs.{IsUnderWay};

use crate::loads::filed_of;
use crate::still_tree::StillTree;
use merge_group::{Closed, Turn, close_run, merge_next, open_run};
use merge_journal::gate_path;
use merge_site::{Site, SiteGroup};
use owner_book::{OwnerBook, Wish};
use recovery::recover;
use std::alloc::{AllocError, Global};
use tree_mem::MemSink;

/// Claims these paths for a group.
pub fn claim(alloc: Global, book: &mut OwnerBook, wishes: Vec<Wish>) -> Result<(), AllocError>
    requires { book.old.claims ≡ [] }
{
    match book.claim(alloc, 0, wishes, Vec::new(alloc), &[]) {
        Ok(()) => Ok(()),
        Err(_) => Err(AllocError),
    }
}

fn empty(alloc: Global) -> StillTree {
    StillTree {
        alloc,
        gate: None,
        filed: Vec::new(alloc),
        calls: 0,
    }
}

/// A tree with the open gate of a group that places so many empty files.
pub fn open_tree(alloc: Global, paths: u32) -> Result<StillTree, AllocError> {
    let gate = gate_path(alloc, 0)?;
    let filed = filed_of(alloc, paths)?;
    Ok(StillTree {
        alloc,
        gate: Some(gate),
        filed,
        calls: 0,
    })
}

/// Merges a group into a tree that keeps nothing, and tells how many calls that made.
pub fn merge(
    alloc: Global,
    turn: Turn,
    book: OwnerBook,
    groups: Vec<SiteGroup>,
) -> Result<u64, AllocError>
    requires first { turn.group ≡ 0 }
    requires one { length groups.items ≡ 1 }
    requires unclaimed { book.claims ≡ [] }
{
    let mut history = Vec::with_capacity(alloc, 1)?;
    let mut acknowledged = Vec::with_capacity(alloc, 1)?;
    let mut site = begun(alloc, book, groups)?;
    let end = merge_next(&mut site, turn, &mut history, &mut acknowledged);
    calls_of(close_run(alloc, site, end))
}

/// A site of one group over a tree that keeps nothing.
fn begun(
    alloc: Global,
    book: OwnerBook,
    groups: Vec<SiteGroup>,
) -> Result<Site<StillTree, MemSink>, AllocError>
    requires one { length groups.items ≡ 1 }
    requires unclaimed { book.claims ≡ [] }
    ensures begun { IfOk result (λ s. IsUnderWay false (λ _. None) [] [] [] s) }
    ensures one { IfOk result (λ s. length s.groups ≡ 1) }
{
    match open_run(alloc, empty(alloc), MemSink::new(alloc), book, groups) {
        Ok(site) => Ok(site),
        Err(_) => Err(AllocError),
    }
}

/// The calls of the tree of a run that ended well.
fn calls_of(closed: Closed<StillTree, MemSink>) -> Result<u64, AllocError> {
    let Closed { tree, end, .. } = closed;
    match end {
        Ok(()) => Ok(tree.calls),
        Err(_) => Err(AllocError),
    }
}

/// Recovers a tree, and tells how many calls that made.
pub fn recovered(alloc: Global, mut tree: StillTree) -> Result<u64, AllocError> {
    match recover(alloc, &mut tree) {
        Ok(_) => Ok(tree.calls),
        Err(_) => Err(AllocError),
    }
}
