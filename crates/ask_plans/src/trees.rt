//! Trees of the objects of a case.
//!
//! `PATH=TEXT` is a plain file and `PATH@TARGET` a link. The paths begin behind the database's folder.

use ask_lines::unescaped;
use file_tree::{Kind, Object, Path};
use std::alloc::Global;
use tree_mem::MemTree;

fn path_of(alloc: Global, path: &str) -> Option<Path> {
    let text = format!(in alloc; "var/db/pkg/{path}").ok()?;
    Path::parse(alloc, text.as_str()).ok()
}

fn object_of(alloc: Global, kind: Kind, text: &str) -> Option<Object> {
    let text = unescaped(alloc, text).ok()?;
    let bytes = Vec::from_slice(alloc, text.as_bytes()).ok()?;
    Some(Object { kind, bytes })
}

/// The path, the kind and the text of an object; a file without a text where only a path is there.
fn parts_of(text: &str) -> (&str, Kind, &str) {
    if let Some((path, text)) = text.split_once('=') {
        return (path, Kind::Plain, text);
    }
    match text.split_once('@') {
        Some((path, target)) => (path, Kind::Link, target),
        None => (text, Kind::Plain, ""),
    }
}

fn entry_of(alloc: Global, text: &str) -> Option<(Path, Object)> {
    let (path, kind, text) = parts_of(text);
    let path = path_of(alloc, path)?;
    let object = object_of(alloc, kind, text)?;
    Some((path, object))
}

/// The tree of these objects, a tab between two.
pub(crate) fn tree_of(alloc: Global, parts: &str) -> Option<MemTree> {
    let mut objects = Vec::new(alloc);
    for part in parts.split('\t') {
        if !part.is_empty() {
            objects.push(entry_of(alloc, part)?).ok()?;
        }
    }
    MemTree::new(alloc, objects).ok()
}
