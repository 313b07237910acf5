//! What the fields of a case say: each is a word and what it says.
//!
//! | field | what it says |
//! |---|---|
//! | `hold OBJECT` | the tree holds it |
//! | `stop N` | the call of this number behind the opening, and all later ones, fail |
//! | `own K PATH` | package K owns the path |
//! | `goes G K` | package K goes with group G |
//! | `line G TEXT` | what is written of group G, and a line feed |
//! | `bring G OBJECT`, `folder G OBJECT` | group G places it; a file of the package's folder |
//! | `also G OBJECT`, `beside G OBJECT` | for `two`: the same of a second package of group G |
//! | `drop G PATH` | group G removes it |
//! | `order GROUPS` | for `events`: whose event comes, a digit for each, of three groups |
//! | `claim PATH`, `again PATH` | for `book`: what groups 9 and 10 claim |
//! | `end settle`, `end release` | for `book`: what becomes of the first claim |
//! | `look PATH` | the path is asked for |
//! | `list PACKAGE` | what the package owns is asked for |
//!
//! The package that group G brings is 9 + G, and the second one is 19 + G. `events`, `one`, `two`
//! and `recover` print how they ended, the calls of the tree behind the opening, its syncs, which
//! of the paths asked for were changed since the last sync, the objects that are left, and what was
//! written. `events` ends with how many came, and what refused a claim. `one` merges group 1 of
//! two, and `two` both; each ends with `ok` or why it stopped, the history, and the acknowledged
//! groups.

ghost use Rattle.std.specs.Prelude.{◌≡◌, ◌<◌, [], IfOk, length};

use ask_lines::{cut, entry_of, path_of, small_number_of};
use file_tree::{Entry, Object, Path};
use merge_record::OwnerKey;
use merge_site::SiteGroup;
use owner_book::OwnerBook;
use std::alloc::{AllocError, Global};
use std::io;

/// What the first field with this word says, or nothing.
pub fn said<'a>(fields: &'a str, word: &str) -> &'a str {
    for field in fields.split('\t') {
        let (what, rest) = cut(field, ' ');
        if what == word {
            return rest;
        }
    }
    ""
}

/// The objects that the tree holds.
pub fn held(alloc: Global, fields: &str) -> io::Result<Vec<(Path, Object)>> {
    let mut objects = Vec::new(alloc);
    for field in fields.split('\t') {
        let (what, object) = cut(field, ' ');
        if what == "hold" {
            objects.push(held_object(alloc, object)?)?;
        }
    }
    Ok(objects)
}

fn held_object(alloc: Global, text: &str) -> io::Result<(Path, Object)> {
    let Entry { path, object } = entry_of(alloc, text)?;
    Ok((path, object))
}

/// The paths that fields with this word say.
pub fn paths(alloc: Global, fields: &str, word: &str) -> io::Result<Vec<Path>> {
    let mut paths = Vec::new(alloc);
    for field in fields.split('\t') {
        let (what, path) = cut(field, ' ');
        if what == word {
            paths.push(path_of(alloc, path)?)?;
        }
    }
    Ok(paths)
}

/// The book in which each package owns what is said of it.
pub fn book(alloc: Global, fields: &str) -> io::Result<OwnerBook>
    ensures { IfOk result (λ b. b.claims ≡ []) }
{
    let packages = owned(alloc, fields)?;
    Ok(OwnerBook::from_records(alloc, &packages)?)
}

fn owned(alloc: Global, fields: &str) -> io::Result<Vec<(OwnerKey, Vec<Path>)>> {
    let mut packages = Vec::new(alloc);
    for field in fields.split('\t') {
        let (what, rest) = cut(field, ' ');
        if what == "own" {
            packages.push(owned_by(alloc, rest)?)?;
        }
    }
    Ok(packages)
}

fn owned_by(alloc: Global, text: &str) -> io::Result<(OwnerKey, Vec<Path>)> {
    let (number, path) = cut(text, ' ');
    let number = small_number_of(number)?;
    let paths = vec![in alloc; path_of(alloc, path)?]?;
    Ok((OwnerKey { number }, paths))
}

/// What a field with this word says of a group.
pub fn said_of<'a>(field: &'a str, word: &str, group: u32) -> Option<&'a str> {
    let (what, rest) = cut(field, ' ');
    let (number, rest) = cut(rest, ' ');
    if what == word && number.parse::<u32>() == Ok(group) {
        Some(rest)
    } else {
        None
    }
}

/// The packages that go with a group.
fn dying(alloc: Global, fields: &str, group: u32) -> io::Result<Vec<OwnerKey>> {
    let mut keys = Vec::new(alloc);
    for field in fields.split('\t') {
        if let Some(number) = said_of(field, "goes", group) {
            let number = small_number_of(number)?;
            keys.push(OwnerKey { number })?;
        }
    }
    Ok(keys)
}

/// What is written of a group.
fn line(alloc: Global, fields: &str, group: u32) -> Result<Vec<u8>, AllocError> {
    let mut bytes = Vec::new(alloc);
    for field in fields.split('\t') {
        if let Some(text) = said_of(field, "line", group) {
            bytes.extend_from_slice(text.as_bytes())?;
            bytes.push(b'\n')?;
        }
    }
    Ok(bytes)
}

/// What a group brings to a site.
pub fn group(alloc: Global, fields: &str, group: u32) -> io::Result<SiteGroup> {
    let dying = dying(alloc, fields, group)?;
    let line = line(alloc, fields, group)?;
    Ok(SiteGroup {
        after: Vec::new(alloc),
        dying,
        line,
    })
}

/// The entries that a group places, by fields with this word.
pub fn entries(alloc: Global, fields: &str, word: &str, group: u32) -> io::Result<Vec<Entry>> {
    let mut entries = Vec::new(alloc);
    for field in fields.split('\t') {
        if let Some(object) = said_of(field, word, group) {
            entries.push(entry_of(alloc, object)?)?;
        }
    }
    Ok(entries)
}

/// The entry that a group places behind so many others, if there is one.
pub fn staged(alloc: Global, fields: &str, group: u32, before: usize) -> Option<Entry> {
    let mut at = 0usize;
    for field in fields.split('\t') {
        if let Some(object) = said_of(field, "bring", group) {
            if at == before {
                return entry_of(alloc, object).ok();
            }
            at = at.saturating_add(1);
        }
    }
    None
}

/// The paths that a group removes.
pub fn removals(alloc: Global, fields: &str, group: u32) -> io::Result<Vec<Path>> {
    let mut paths = Vec::new(alloc);
    for field in fields.split('\t') {
        if let Some(path) = said_of(field, "drop", group) {
            paths.push(path_of(alloc, path)?)?;
        }
    }
    Ok(paths)
}

/// Whether a field with this word says something of a group.
pub fn says_of(fields: &str, word: &str, group: u32) -> bool {
    for field in fields.split('\t') {
        if said_of(field, word, group).is_some() {
            return true;
        }
    }
    false
}

/// The package that a group brings.
pub fn brought(group: u32) -> OwnerKey {
    let number = group.saturating_add(9);
    OwnerKey { number }
}

/// The second package that a group brings.
pub fn brought_also(group: u32) -> OwnerKey {
    let number = group.saturating_add(19);
    OwnerKey { number }
}
