//! Whole runs of one group or two, by the steps that the run of a plan takes.

ghost use Rattle.std.specs.Prelude.{◌≡◌, [], IfOk, true, length};
ghost use Rattle.merge_core.specs.Trail.{IsAtRest};
ghost use Rattle.merge_group.specs.Runs.{IsUnderWay};
ghost use Rattle.merge_group.specs.Through.{HasRoom};
ghost use Rattle.tree_mem.specs.MemTree.{mem_story};

use crate::cases::{book, brought, brought_also, entries, group, removals, says_of};
use crate::openings::stopping;
use crate::outcomes::{push_image_bad, push_machine, push_stop, push_tree, push_written};
use merge_group::{Closed, Files, Stop, Turn, close_run, merge_next, open_run};
use merge_site::{Site, SiteGroup};
use std::alloc::{AllocError, Global};
use std::io;
use tree_mem::{MemSink, MemTree};

/// What a run left, and how it ended.
#[derive(Drop)]
struct Left {
    tree: MemTree,
    sink: MemSink,
    end: Result<(), Stop>,
    /// The groups that are in the tree for good, and those whose line was written.
    notes: Notes,
}

/// What a run notes of its groups.
#[derive(Drop)]
struct Notes {
    history: Vec<u32>,
    acknowledged: Vec<u32>,
}

/// What becomes of a tree when group 1 of two is merged into it.
pub fn one(alloc: Global, fields: &str) -> io::Result<String> {
    let (tree, before) = stopping(alloc, fields)?;
    let left = merge_one(alloc, fields, tree)?;
    told(alloc, fields, left, before)
}

/// What becomes of a tree when groups 0 and 1 are merged into it, one after the other.
pub fn two(alloc: Global, fields: &str) -> io::Result<String> {
    let (tree, before) = stopping(alloc, fields)?;
    let left = merge_two(alloc, fields, tree)?;
    told(alloc, fields, left, before)
}

fn merge_one(alloc: Global, fields: &str, tree: MemTree) -> io::Result<Left>
    requires { IsAtRest (mem_story tree).now.holds (mem_story tree).now }
{
    let turn = only_turn(alloc, fields)?;
    let mut notes = room_for_two(alloc)?;
    let mut site = begun(alloc, fields, tree)?;
    let end = merge_next(&mut site, turn, &mut notes.history, &mut notes.acknowledged);
    Ok(closed(alloc, site, end, notes))
}

fn merge_two(alloc: Global, fields: &str, tree: MemTree) -> io::Result<Left>
    requires { IsAtRest (mem_story tree).now.holds (mem_story tree).now }
{
    let first = turn(alloc, fields, 0)?;
    let second = turn(alloc, fields, 1)?;
    let mut notes = room_for_two(alloc)?;
    let mut site = begun(alloc, fields, tree)?;
    let end = merge_both(&mut site, first, second, &mut notes);
    Ok(closed(alloc, site, end, notes))
}

/// Merges groups 0 and 1, until one is stopped.
fn merge_both(
    site: &mut Site<MemTree, MemSink>,
    first: Turn,
    second: Turn,
    notes: &mut Notes,
) -> Result<(), Stop>
    requires begun { IsUnderWay true (mem_story site.old.opened).now.holds []
        notes.old.history.items notes.old.acknowledged.items site.old }
    requires two { length site.old.groups ≡ 2 }
    requires first { first.group ≡ 0 }
    requires second { second.group ≡ 1 }
    requires room { HasRoom 2 notes.old.history }
    requires more { HasRoom 2 notes.old.acknowledged }
{
    merge_next(site, first, &mut notes.history, &mut notes.acknowledged)?;
    merge_next(site, second, &mut notes.history, &mut notes.acknowledged)
}

/// A site of two groups, none of which has begun.
fn begun(alloc: Global, fields: &str, tree: MemTree) -> io::Result<Site<MemTree, MemSink>>
    requires { IsAtRest (mem_story tree).now.holds (mem_story tree).now }
    ensures begun { IfOk result (λ s. IsUnderWay true (mem_story s.opened).now.holds [] [] [] s) }
    ensures two { IfOk result (λ s. length s.groups ≡ 2) }
{
    let groups = both_groups(alloc, fields)?;
    let book = book(alloc, fields)?;
    match open_run(alloc, tree, MemSink::new(alloc), book, groups) {
        Ok(site) => Ok(site),
        Err(_) => Err(io::Error::from(AllocError)),
    }
}

/// Notes of no group, with room for two.
fn room_for_two(alloc: Global) -> Result<Notes, AllocError>
    ensures none { IfOk result (λ n. n.history.items ≡ []) }
    ensures untold { IfOk result (λ n. n.acknowledged.items ≡ []) }
    ensures room { IfOk result (λ n. HasRoom 2 n.history) }
    ensures more { IfOk result (λ n. HasRoom 2 n.acknowledged) }
{
    let history = Vec::with_capacity(alloc, 2)?;
    let acknowledged = Vec::with_capacity(alloc, 2)?;
    Ok(Notes {
        history,
        acknowledged,
    })
}

/// What a run left that ended so, once its journal is cleared.
fn closed(
    alloc: Global,
    site: Site<MemTree, MemSink>,
    end: Result<(), Stop>,
    notes: Notes,
) -> Left {
    let Closed {
        tree,
        sink,
        end,
        ..
    } = close_run(alloc, site, end);
    Left {
        tree,
        sink,
        end,
        notes,
    }
}

/// What the package of a group places.
fn files(alloc: Global, fields: &str, group: u32) -> io::Result<Files> {
    let image = entries(alloc, fields, "bring", group)?;
    let folder = entries(alloc, fields, "folder", group)?;
    Ok(Files {
        owner: brought(group),
        image,
        folder,
    })
}

/// What the second package of a group places.
fn other_files(alloc: Global, fields: &str, group: u32) -> io::Result<Files> {
    let image = entries(alloc, fields, "also", group)?;
    let folder = entries(alloc, fields, "beside", group)?;
    Ok(Files {
        owner: brought_also(group),
        image,
        folder,
    })
}

/// What the packages of a group place: a second one comes where a field says so.
fn packages(alloc: Global, fields: &str, group: u32) -> io::Result<Vec<Files>> {
    let first = files(alloc, fields, group)?;
    let mut packages = vec![in alloc; first]?;
    if says_of(fields, "also", group) {
        packages.push(other_files(alloc, fields, group)?)?;
    }
    Ok(packages)
}

fn both_groups(alloc: Global, fields: &str) -> io::Result<Vec<SiteGroup>>
    ensures { IfOk result (λ v. length v.items ≡ 2) }
{
    let first = group(alloc, fields, 0)?;
    let second = group(alloc, fields, 1)?;
    Ok(vec![in alloc; first, second]?)
}

/// The turn of group 1 that brings its first package, and removes nothing.
fn only_turn(alloc: Global, fields: &str) -> io::Result<Turn>
    ensures { IfOk result (λ t. t.group ≡ 1) }
{
    let files = files(alloc, fields, 1)?;
    Ok(Turn {
        group: 1,
        removals: Vec::new(alloc),
        packages: vec![in alloc; files]?,
    })
}

fn turn(alloc: Global, fields: &str, group: u32) -> io::Result<Turn>
    ensures { IfOk result (λ t. t.group ≡ group) }
{
    let removals = removals(alloc, fields, group)?;
    let packages = packages(alloc, fields, group)?;
    Ok(Turn {
        group,
        removals,
        packages,
    })
}

/// How a run ended, what it left, the history and the acknowledged groups.
fn told(alloc: Global, fields: &str, left: Left, before: u64) -> io::Result<String> {
    let Left {
        tree,
        sink,
        end,
        notes,
    } = left;
    let mut text = ended(alloc, end)?;
    push_tree(alloc, &mut text, &tree, before, fields)?;
    push_written(&mut text, &sink)?;
    push_groups(&mut text, &notes.history)?;
    push_groups(&mut text, &notes.acknowledged)?;
    Ok(text)
}

fn ended(alloc: Global, end: Result<(), Stop>) -> Result<String, AllocError> {
    let mut text = String::new(alloc);
    push_end(&mut text, end)?;
    Ok(text)
}

fn push_end(text: &mut String, end: Result<(), Stop>) -> Result<(), AllocError> {
    match end {
        Ok(()) => text.push_str("ok"),
        Err(Stop::Claim(stop)) => push_stop(text, stop),
        Err(Stop::Image(bad)) => push_image_bad(text, bad),
        Err(Stop::Output) => text.push_str("output"),
        Err(Stop::Limit) => text.push_str("limit"),
        Err(Stop::Tree(fault)) => push_machine(text, fault),
    }
}

fn push_groups(text: &mut String, groups: &[u32]) -> Result<(), AllocError> {
    text.push('\t')?;
    for group in groups {
        write!(text, "{group}")?;
    }
    Ok(())
}
