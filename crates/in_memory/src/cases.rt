//! What a case begins with, from its fields. Each reader answers none where a field of its own isn't in
//! form, or memory runs out.

ghost use Rattle.std.specs.Prelude.{◌<◌, IfSome, length};

use crate::fields::{cut, unescaped, value_of};
use crate::image_builder::ImageBuilder;
use crate::packed::Packed;
use build_pool::BuildPool;
use file_tree::{Entry, Kind, Object, Path};
use std::alloc::Global;
use tree_mem::{MemSink, MemTree};

/// The number of the one builder.
const BUILDER: u32 = 7;

/// The words of the command.
pub fn words_of(alloc: Global, fields: &str) -> Option<Vec<String>> {
    let mut words = Vec::new(alloc);
    for field in fields.split('\t') {
        let (name, word) = cut(field);
        if name == "word" {
            words.push(unescaped(alloc, word).ok()?).ok()?;
        }
    }
    Some(words)
}

/// The tree, whose calls fail as the case says.
pub fn tree_of(alloc: Global, fields: &str) -> Option<MemTree> {
    let stop = call_of(fields, "stop")?;
    let fail = call_of(fields, "fail")?;
    let mut tree = sound_tree(alloc, fields)?;
    if let Some(call) = stop {
        tree.stop_at(call);
    }
    if let Some(call) = fail {
        tree.fail_at(call).ok()?;
    }
    Some(tree)
}

/// The tree without faults.
fn sound_tree(alloc: Global, fields: &str) -> Option<MemTree> {
    let mut objects = Vec::new(alloc);
    for field in fields.split('\t') {
        let (name, object) = cut(field);
        if name == "tree" {
            let Entry { path, object } = entry_of(alloc, object)?;
            objects.push((path, object)).ok()?;
        }
    }
    MemTree::new(alloc, objects).ok()
}

/// The output, whose write fails as the case says.
pub fn sink_of(alloc: Global, fields: &str) -> Option<MemSink> {
    let write = call_of(fields, "write")?;
    let mut sink = MemSink::new(alloc);
    if let Some(call) = write {
        sink.fail_at(call).ok()?;
    }
    Some(sink)
}

/// A pool of one builder, which tells the images, and fails where the case says so.
pub fn pool_of(alloc: Global, fields: &str) -> Option<BuildPool<ImageBuilder>>
    ensures { IfSome result (λ p. 0 < length p.resting) }
{
    let mut builder = ImageBuilder::new(alloc, BUILDER, images_of(alloc, fields)?);
    if value_of(fields, "broken").is_some() {
        builder.fail();
    }
    BuildPool::new(alloc, vec![in alloc; builder].ok()?).ok()
}

/// The entries of all images.
fn images_of(alloc: Global, fields: &str) -> Option<Vec<Packed>> {
    let mut entries = Vec::new(alloc);
    for field in fields.split('\t') {
        let (name, entry) = cut(field);
        if name == "image" {
            entries.push(packed_of(alloc, entry)?).ok()?;
        }
    }
    Some(entries)
}

/// The entry of a package and what `entry_of` reads.
fn packed_of(alloc: Global, text: &str) -> Option<Packed> {
    let (name, entry) = cut(text);
    let entry = entry_of(alloc, entry)?;
    let of = String::from_str(alloc, name).ok()?;
    Some(Packed { of, entry })
}

/// The watched paths.
pub fn watched_of(alloc: Global, fields: &str) -> Option<Vec<Path>> {
    let mut paths = Vec::new(alloc);
    for field in fields.split('\t') {
        let (name, path) = cut(field);
        if name == "watch" {
            paths.push(path_of(alloc, path)?).ok()?;
        }
    }
    Some(paths)
}

/// The number of a call, where a field of this name says one.
fn call_of(fields: &str, name: &str) -> Option<Option<u64>> {
    match value_of(fields, name) {
        Some(text) => Some(Some(text.parse::<u64>().ok()?)),
        None => Some(None),
    }
}

/// The entry of a kind, bytes in hex and a path.
fn entry_of(alloc: Global, text: &str) -> Option<Entry> {
    let (kind, rest) = cut(text);
    let (bytes, path) = cut(rest);
    let kind = kind_of(kind)?;
    let path = path_of(alloc, path)?;
    let bytes = hex::decode(alloc, bytes).ok()?;
    let object = Object { kind, bytes };
    Some(Entry { path, object })
}

fn path_of(alloc: Global, text: &str) -> Option<Path> {
    let plain = unescaped(alloc, text).ok()?;
    Path::parse(alloc, plain.as_str()).ok()
}

fn kind_of(letter: &str) -> Option<Kind> {
    match letter {
        "-" => Some(Kind::Plain),
        "x" => Some(Kind::Exec),
        "l" => Some(Kind::Link),
        _ => None,
    }
}
