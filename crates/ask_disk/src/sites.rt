//! Events of three groups of a site, in an order that is told.

ghost use Rattle.std.specs.Prelude.{◌<◌};
ghost use Rattle.merge_core.specs.Trail.{IsAtRest};
ghost use Rattle.tree_mem.specs.MemTree.{mem_story};
ghost use Rattle.ask_disk.specs.Three.{AreThree};

use crate::cases::said;
use crate::events::advance;
use crate::openings::{site, stopping};
use crate::outcomes::{push_tree, push_written};
use merge_site::Site;
use std::alloc::Global;
use std::io;
use tree_mem::{MemSink, MemTree};

/// What becomes of a site and its tree, and how many events of the order came.
pub fn answer(alloc: Global, fields: &str) -> io::Result<String> {
    let (tree, before) = stopping(alloc, fields)?;
    let mut refusal = String::new(alloc);
    let (came, tree, sink) = walked(alloc, tree, fields, &mut refusal)?;
    let mut text = format!(in alloc; "{came}")?;
    push_tree(alloc, &mut text, &tree, before, fields)?;
    push_written(&mut text, &sink)?;
    text.push('\t')?;
    text.push_str(refusal.as_str())?;
    Ok(text)
}

/// Makes the events of the order over a tree.
fn walked(
    alloc: Global,
    tree: MemTree,
    fields: &str,
    refusal: &mut String,
) -> io::Result<(u32, MemTree, MemSink)>
    requires { IsAtRest (mem_story tree).now.holds (mem_story tree).now }
{
    let mut site = site(alloc, fields, tree)?;
    let came = walk(alloc, &mut site, fields, refusal);
    let (tree, sink, _) = site.into_parts();
    Ok((came, tree, sink))
}

/// The group that a digit tells, of three.
fn group_of(digit: u8) -> u32
    ensures { result < 3 }
{
    match digit {
        b'0' => 0,
        b'1' => 1,
        _ => 2,
    }
}

/// Makes the events of the order, until one doesn't come, and tells how many came.
fn walk(alloc: Global, site: &mut Site<MemTree, MemSink>, fields: &str, refusal: &mut String) -> u32
    requires three { AreThree site.old.keeping }
{
    let mut came = 0u32;
    for digit in said(fields, "order").as_bytes() {
        if !advance(alloc, site, fields, group_of(*digit), refusal) {
            break;
        }
        came = came.saturating_add(1);
    }
    came
}
