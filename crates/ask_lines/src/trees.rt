//! Lines of text that tell of trees: paths, bytes, numbers and objects as their fields.
//!
//! The fields of a line stand apart by tabs, and bytes are told in hex. An object is told by its kind
//! (`-` a file, `x` one that can be run, `l` a link), its bytes and its path, as `- 6162 etc/p`. Where
//! more of them stand in one field, [`THEN`] is between two, which no path has in it.
//!
//! ```
//! let entry = entry_of(alloc, field)?;
//! ```

use crate::{cut, not_in_form};
use file_tree::{Entry, Kind, Object, Path};
use std::alloc::{AllocError, Global};
use std::io;

/// What stands between two paths or objects in one field.
pub const THEN: &str = " -> ";

/// The path that a text is.
pub fn path_of(alloc: Global, text: &str) -> io::Result<Path> {
    Path::parse(alloc, text).map_err(|_| not_in_form())
}

/// The bytes that a text tells in hex.
pub fn bytes_of(alloc: Global, text: &str) -> io::Result<Vec<u8>> {
    hex::decode(alloc, text).map_err(|_| not_in_form())
}

/// The number that a text tells.
pub fn number_of(text: &str) -> io::Result<u64> {
    text.parse::<u64>().map_err(|_| not_in_form())
}

/// The same of 32 bits, as those of groups and packages.
pub fn small_number_of(text: &str) -> io::Result<u32> {
    text.parse::<u32>().map_err(|_| not_in_form())
}

/// The kind of an object, by its letter.
pub fn kind_of(letter: &str) -> io::Result<Kind> {
    match letter {
        "-" => Ok(Kind::Plain),
        "x" => Ok(Kind::Exec),
        "l" => Ok(Kind::Link),
        _ => Err(not_in_form()),
    }
}

/// The letter of a kind.
pub fn letter_of(kind: Kind) -> &'static str {
    match kind {
        Kind::Plain => "-",
        Kind::Exec => "x",
        Kind::Link => "l",
    }
}

/// The entry that a field tells.
pub fn entry_of(alloc: Global, field: &str) -> io::Result<Entry> {
    let (kind, rest) = cut(field, ' ');
    let (bytes, path) = cut(rest, ' ');
    let kind = kind_of(kind)?;
    let path = path_of(alloc, path)?;
    let bytes = bytes_of(alloc, bytes)?;
    let object = Object { kind, bytes };
    Ok(Entry { path, object })
}

/// The entries that these fields tell; no field is none.
pub fn entries_of(alloc: Global, fields: &str) -> io::Result<Vec<Entry>> {
    let mut entries = Vec::new(alloc);
    if fields.is_empty() {
        return Ok(entries);
    }
    for field in fields.split('\t') {
        entries.push(entry_of(alloc, field)?)?;
    }
    Ok(entries)
}

/// The objects that these fields tell, each with its path.
pub fn objects_of(alloc: Global, fields: &str) -> io::Result<Vec<(Path, Object)>> {
    let mut objects = Vec::new(alloc);
    for Entry { path, object } in entries_of(alloc, fields)? {
        objects.push((path, object))?;
    }
    Ok(objects)
}

/// Tells bytes in hex.
pub fn push_hex(text: &mut String, bytes: &[u8]) -> Result<(), AllocError> {
    for byte in bytes {
        text.push(digit(byte / 16))?;
        text.push(digit(byte % 16))?;
    }
    Ok(())
}

fn digit(number: u8) -> char {
    char::from(b"0123456789abcdef"[usize::from(number % 16)])
}

/// Tells an object, with its path.
pub fn push_object(text: &mut String, path: &Path, object: &Object) -> Result<(), AllocError> {
    text.push_str(letter_of(object.kind))?;
    text.push(' ')?;
    push_hex(text, &object.bytes)?;
    text.push(' ')?;
    text.push_str(path.text())
}

/// Puts this between two, where something stands before it.
pub fn push_between(text: &mut String, between: &str) -> Result<(), AllocError> {
    if text.is_empty() {
        return Ok(());
    }
    text.push_str(between)
}
