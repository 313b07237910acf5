//! What is told of a tree, a sink and a claim.

use ask_lines::{THEN, cut, path_of, push_hex, push_object};
use file_tree::{Path, TreeFault};
use merge_fit::ImageBad;
use merge_site::ClaimStop;
use owner_book::{ClaimFault, Collision};
use std::alloc::{AllocError, Global};
use std::io;
use tree_mem::{ImageFault, MemSink, MemTree};

/// The calls of a tree behind these first ones, its syncs, which of the paths that are asked for were
/// changed since the last sync, and its objects.
pub fn push_tree(
    alloc: Global,
    text: &mut String,
    tree: &MemTree,
    before: u64,
    fields: &str,
) -> io::Result<()> {
    push_number(text, tree.calls().saturating_sub(before))?;
    push_number(text, tree.syncs())?;
    text.push('\t')?;
    push_touched(alloc, text, tree, fields)?;
    text.push('\t')?;
    Ok(push_objects(text, tree)?)
}

fn push_number(text: &mut String, number: u64) -> Result<(), AllocError> {
    write!(text, "\t{number}")
}

fn push_touched(alloc: Global, text: &mut String, tree: &MemTree, fields: &str) -> io::Result<()> {
    let mut is_first = true;
    for field in fields.split('\t') {
        let (what, path) = cut(field, ' ');
        if what == "look" && is_touched(alloc, tree, path)? {
            push_next(text, path, is_first)?;
            is_first = false;
        }
    }
    Ok(())
}

/// Adds one of several paths.
fn push_next(text: &mut String, path: &str, is_first: bool) -> Result<(), AllocError> {
    if !is_first {
        text.push_str(THEN)?;
    }
    text.push_str(path)
}

/// Whether a path was changed since the last sync.
fn is_touched(alloc: Global, tree: &MemTree, path: &str) -> io::Result<bool> {
    let choice = vec![in alloc; (path_of(alloc, path)?, None)]?;
    match tree.image(&choice) {
        Ok(_) => Ok(true),
        Err(ImageFault::NotTouched { .. }) => Ok(false),
        Err(ImageFault::Memory) => Err(io::Error::from(AllocError)),
    }
}

fn push_objects(text: &mut String, tree: &MemTree) -> Result<(), AllocError> {
    let mut between = "";
    for (path, object) in tree.objects() {
        text.push_str(between)?;
        push_object(text, path, object)?;
        between = THEN;
    }
    Ok(())
}

/// What was written.
pub fn push_written(text: &mut String, sink: &MemSink) -> Result<(), AllocError> {
    text.push('\t')?;
    push_hex(text, sink.bytes())
}

/// That the device failed. Want of memory ends the telling.
pub fn push_machine(text: &mut String, fault: TreeFault) -> Result<(), AllocError> {
    match fault {
        TreeFault::Failed => text.push_str("device"),
        TreeFault::Memory => Err(AllocError),
    }
}

/// Why a claim was stopped.
pub fn push_stop(text: &mut String, stop: ClaimStop) -> Result<(), AllocError> {
    match stop {
        ClaimStop::Collision(collision) => push_collision(text, collision),
        ClaimStop::Image(bad) => push_image_bad(text, bad),
        ClaimStop::Removal { path } => push_word(text, "removal", &path),
        ClaimStop::Overlap => text.push_str("overlap"),
        ClaimStop::Limit => text.push_str("limit"),
        ClaimStop::Tree(fault) => push_machine(text, fault),
    }
}

/// Why the book refused a claim.
pub fn push_fault(text: &mut String, fault: ClaimFault) -> Result<(), AllocError> {
    match fault {
        ClaimFault::Collision(collision) => push_collision(text, collision),
        ClaimFault::Image(bad) => push_image_bad(text, bad),
        ClaimFault::Limit => text.push_str("limit"),
        ClaimFault::Memory => Err(AllocError),
    }
}

fn push_collision(text: &mut String, collision: Collision) -> Result<(), AllocError> {
    match collision {
        Collision::Owned { path, owner } => push_of(text, "owned", &path, owner.number),
        Collision::Claimed { path, group } => push_of(text, "claimed", &path, group),
        Collision::Ancestor { path, other } => push_two(text, &path, &other),
        Collision::Unowned { path } => push_word(text, "unowned", &path),
    }
}

fn push_of(text: &mut String, word: &str, path: &Path, number: u32) -> Result<(), AllocError> {
    let path = path.text();
    write!(text, "{word} {path} {number}")
}

fn push_two(text: &mut String, path: &Path, other: &Path) -> Result<(), AllocError> {
    let path = path.text();
    let other = other.text();
    write!(text, "ancestor {path} {other}")
}

/// Why an image was refused.
pub fn push_image_bad(text: &mut String, bad: ImageBad) -> Result<(), AllocError> {
    match bad {
        ImageBad::Reserved { path } => push_word(text, "reserved", &path),
        ImageBad::Twice { path } => push_word(text, "twice", &path),
        ImageBad::Large { path } => push_word(text, "large", &path),
        ImageBad::Link { path } => push_word(text, "link", &path),
    }
}

fn push_word(text: &mut String, word: &str, path: &Path) -> Result<(), AllocError> {
    text.push_str(word)?;
    text.push(' ')?;
    text.push_str(path.text())
}
