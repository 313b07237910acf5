//! The steps of a tree in memory. `hold OBJECT` says what it is made with, `fail N` makes the call
//! of that number fail, `stop N` it and all later ones; these have no answer. `look`, `read`,
//! `list` and `remove` take a path, `put` an object, `place` two paths, and `sync` nothing: each is
//! a call of the tree. `calls`, `syncs`, `refused` and `objects` tell what became of it, and
//! `image` takes the tree as a crash leaves it, where each path that is named holds that object, or
//! nothing by `gone PATH`.

use crate::cases::held;
use ask_lines::{
    THEN, cut, entry_of, letter_of, not_in_form, number_of, path_of, push_between, push_object,
};
use file_tree::{Entry, Look, Object, Path, Tree, TreeFault};
use std::alloc::{AllocError, Global};
use std::io;
use tree_mem::{ImageFault, MemFault, MemTree};

/// The answers of a tree to these steps, or the first path of it that stands twice.
pub fn answers(alloc: Global, fields: &str) -> io::Result<String> {
    match MemTree::new(alloc, held(alloc, fields)?) {
        Ok(tree) => answers_of(alloc, tree, fields),
        Err(MemFault::Twice { path }) => Ok(twice(alloc, &path)?),
        Err(MemFault::Memory) => Err(io::Error::from(AllocError)),
    }
}

fn twice(alloc: Global, path: &Path) -> Result<String, AllocError> {
    format!(in alloc; "twice {}", path.text())
}

fn answers_of(alloc: Global, tree: MemTree, fields: &str) -> io::Result<String> {
    let mut tree = tree;
    let mut text = String::new(alloc);
    for field in fields.split('\t') {
        let (step, rest) = cut(field, ' ');
        match step {
            "hold" => {}
            "fail" => tree.fail_at(number_of(rest)?)?,
            "stop" => tree.stop_at(number_of(rest)?),
            "image" => {
                push_between(&mut text, "\t")?;
                tree = push_image(alloc, &mut text, tree, rest)?;
            }
            _ => {
                push_between(&mut text, "\t")?;
                push_step(alloc, &mut text, &mut tree, step, rest)?;
            }
        }
    }
    Ok(text)
}

/// Tells whether there is an image of this choice, and takes it then.
fn push_image(
    alloc: Global,
    text: &mut String,
    tree: MemTree,
    choice: &str,
) -> io::Result<MemTree> {
    let choice = choice_of(alloc, choice)?;
    match tree.image(&choice) {
        Ok(image) => {
            text.push_str("ok")?;
            Ok(image)
        }
        Err(ImageFault::NotTouched { path }) => {
            text.push_str("not touched ")?;
            text.push_str(path.text())?;
            Ok(tree)
        }
        Err(ImageFault::Memory) => Err(io::Error::from(AllocError)),
    }
}

fn choice_of(alloc: Global, text: &str) -> io::Result<Vec<(Path, Option<Object>)>> {
    let mut choice = Vec::new(alloc);
    if text.is_empty() {
        return Ok(choice);
    }
    for part in text.split(THEN) {
        choice.push(wish_of(alloc, part)?)?;
    }
    Ok(choice)
}

/// What a path shall hold.
fn wish_of(alloc: Global, part: &str) -> io::Result<(Path, Option<Object>)> {
    if let ("gone", path) = cut(part, ' ') {
        return Ok((path_of(alloc, path)?, None));
    }
    let Entry { path, object } = entry_of(alloc, part)?;
    Ok((path, Some(object)))
}

/// Makes a step that isn't a call that changes the tree, or such a one.
fn push_step(
    alloc: Global,
    text: &mut String,
    tree: &mut MemTree,
    step: &str,
    rest: &str,
) -> io::Result<()> {
    match step {
        "calls" => push_number(text, tree.calls())?,
        "syncs" => push_number(text, tree.syncs())?,
        "refused" => push_number(text, tree.refused())?,
        "objects" => push_objects(text, tree)?,
        "look" => push_look(text, tree, &path_of(alloc, rest)?)?,
        "read" => push_read(text, tree, &path_of(alloc, rest)?)?,
        "list" => push_list(text, tree, &path_of(alloc, rest)?)?,
        _ => text.push_str(changed(alloc, tree, step, rest)?)?,
    }
    Ok(())
}

fn push_number(text: &mut String, number: u64) -> Result<(), AllocError> {
    write!(text, "{number}")
}

fn push_objects(text: &mut String, tree: &MemTree) -> Result<(), AllocError> {
    for (at, (path, object)) in tree.objects().iter().enumerate() {
        if at > 0 {
            text.push_str(THEN)?;
        }
        push_object(text, path, object)?;
    }
    Ok(())
}

fn push_look<T: Tree + Send>(
    text: &mut String,
    tree: &mut T,
    path: &Path,
) -> Result<(), AllocError> {
    text.push_str(match tree.look(path) {
        Ok(Look::Nothing) => "nothing",
        Ok(Look::Item(kind)) => letter_of(kind),
        Ok(Look::Folder) => "folder",
        Err(_) => "failed",
    })
}

fn push_read<T: Tree + Send>(
    text: &mut String,
    tree: &mut T,
    path: &Path,
) -> Result<(), AllocError> {
    match tree.read(path) {
        Ok(Some(object)) => push_object(text, path, &object),
        Ok(None) => text.push_str("nothing"),
        Err(TreeFault::Failed) => text.push_str("failed"),
        Err(TreeFault::Memory) => Err(AllocError),
    }
}

fn push_list<T: Tree + Send>(
    text: &mut String,
    tree: &mut T,
    path: &Path,
) -> Result<(), AllocError> {
    match tree.list(path) {
        Ok(paths) => push_paths(text, &paths),
        Err(TreeFault::Failed) => text.push_str("failed"),
        Err(TreeFault::Memory) => Err(AllocError),
    }
}

fn push_paths(text: &mut String, paths: &[Path]) -> Result<(), AllocError> {
    for (at, path) in paths.iter().enumerate() {
        if at > 0 {
            text.push_str(THEN)?;
        }
        text.push_str(path.text())?;
    }
    Ok(())
}

/// Makes a call that changes the tree.
fn changed<T: Tree + Send>(
    alloc: Global,
    tree: &mut T,
    step: &str,
    rest: &str,
) -> io::Result<&'static str> {
    match step {
        "put" => put(tree, &entry_of(alloc, rest)?),
        "place" => place(alloc, tree, rest),
        "remove" => Ok(word_of(tree.remove(&path_of(alloc, rest)?).is_ok())),
        "sync" => Ok(word_of(tree.sync().is_ok())),
        _ => Err(not_in_form()),
    }
}

fn word_of(ok: bool) -> &'static str {
    if ok { "ok" } else { "failed" }
}

fn put<T: Tree + Send>(tree: &mut T, entry: &Entry) -> io::Result<&'static str> {
    match tree.put(&entry.path, &entry.object) {
        Ok(()) => Ok("ok"),
        Err(TreeFault::Failed) => Ok("failed"),
        Err(TreeFault::Memory) => Err(io::Error::from(AllocError)),
    }
}

/// Places what is held at one path at another one.
fn place<T: Tree + Send>(alloc: Global, tree: &mut T, fields: &str) -> io::Result<&'static str> {
    let (from, to) = fields.split_once(THEN).unwrap_or((fields, ""));
    let from = path_of(alloc, from)?;
    let to = path_of(alloc, to)?;
    place_path(tree, &from, &to)
}

/// A path is read before it is placed, since only what holds something may be.
fn place_path<T: Tree + Send>(tree: &mut T, from: &Path, to: &Path) -> io::Result<&'static str> {
    if from == to {
        return Err(not_in_form());
    }
    match tree.read(from) {
        Ok(Some(_)) => Ok(word_of(tree.place(from, to).is_ok())),
        Ok(None) => Ok("nothing"),
        Err(_) => Ok("failed"),
    }
}
