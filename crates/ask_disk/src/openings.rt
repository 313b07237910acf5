//! A tree at rest, and the site of three groups that is opened over it.

ghost use Rattle.std.specs.Prelude.{◌≡◌, [], IfOk, length};
ghost use Rattle.merge_core.specs.Trail.{IsAtRest};
ghost use Rattle.tree_mem.specs.MemTree.{mem_story};
ghost use Rattle.ask_disk.specs.Three.{AreThree};

use crate::cases::{book, group, held, said};
use ask_lines::{not_in_form, number_of};
use merge_site::{Site, SiteGroup};
use recovery::recover;
use std::alloc::Global;
use std::io;
use tree_mem::{MemSink, MemTree};

/// The tree that is held, once it was recovered.
pub fn resting(alloc: Global, fields: &str) -> io::Result<MemTree>
    ensures { IfOk result (λ t. IsAtRest (mem_story t).now.holds (mem_story t).now) }
{
    let mut tree = unrecovered(alloc, fields)?;
    match recover(alloc, &mut tree) {
        Ok(_) => Ok(tree),
        Err(_) => Err(not_in_form()),
    }
}

/// The tree that is held.
pub fn unrecovered(alloc: Global, fields: &str) -> io::Result<MemTree> {
    MemTree::new(alloc, held(alloc, fields)?).map_err(|_| not_in_form())
}

/// The number of the call at which the device stops, behind these first calls.
pub fn stop_behind(fields: &str, before: u64) -> io::Result<u64> {
    let text = said(fields, "stop");
    if text.is_empty() {
        return Ok(u64::MAX);
    }
    Ok(number_of(text)?.saturating_add(before))
}

/// The tree at rest whose device stops, and the calls that were made of it.
pub fn stopping(alloc: Global, fields: &str) -> io::Result<(MemTree, u64)>
    ensures { IfOk result (λ r. IsAtRest (mem_story r.0).now.holds (mem_story r.0).now) }
{
    let mut tree = resting(alloc, fields)?;
    let before = tree.calls();
    tree.stop_at(stop_behind(fields, before)?);
    Ok((tree, before))
}

fn groups(alloc: Global, fields: &str) -> io::Result<Vec<SiteGroup>>
    ensures { IfOk result (λ v. length v.items ≡ 3) }
{
    let first = group(alloc, fields, 0)?;
    let second = group(alloc, fields, 1)?;
    let third = group(alloc, fields, 2)?;
    Ok(vec![in alloc; first, second, third]?)
}

/// A site of three groups, none of which has begun.
pub fn site(alloc: Global, fields: &str, tree: MemTree) -> io::Result<Site<MemTree, MemSink>>
    requires { IsAtRest (mem_story tree).now.holds (mem_story tree).now }
    ensures { IfOk result (λ s. AreThree s.keeping) }
{
    let groups = groups(alloc, fields)?;
    let book = book(alloc, fields)?;
    match Site::open(alloc, tree, MemSink::new(alloc), book, groups) {
        Ok(site) => Ok(site),
        Err(_) => Err(not_in_form()),
    }
}
