//! Bytes, texts and paths.

use ask_lines::{bytes_of, cut, path_of};
use basics::{Text, is_digit, is_lower};
use file_tree::{Path, PathFault};
use std::alloc::{AllocError, Global};
use std::cmp::Ordering;
use std::io;
use std::str::from_utf8;

/// For each byte whether it is a digit, a small letter or neither.
pub fn kinds(alloc: Global, field: &str) -> io::Result<String> {
    let mut text = String::new(alloc);
    for byte in bytes_of(alloc, field)? {
        text.push(kind_of(byte))?;
    }
    Ok(text)
}

fn kind_of(byte: u8) -> char {
    match (is_digit(byte), is_lower(byte)) {
        (true, false) => 'd',
        (false, true) => 'l',
        (false, false) => '.',
        (true, true) => '!',
    }
}

/// How the copy of a text compares to another text.
pub fn order(alloc: Global, fields: &str) -> io::Result<String> {
    let (one, other) = cut(fields, '\t');
    let one = Text::new(alloc, one)?.try_clone()?;
    let other = Text::from_string(String::from_str(alloc, other)?);
    let word = match one.cmp(&other) {
        Ordering::Less => "less",
        Ordering::Equal => "equal",
        Ordering::Greater => "greater",
    };
    Ok(String::from_str(alloc, word)?)
}

/// The path that a text is, read and copied, or its first fault.
pub fn path(alloc: Global, field: &str) -> io::Result<String> {
    let bytes = bytes_of(alloc, field)?;
    Ok(match from_utf8(&bytes) {
        Ok(text) => verdict(alloc, text)?,
        Err(_) => String::from_str(alloc, "no text")?,
    })
}

fn verdict(alloc: Global, text: &str) -> Result<String, AllocError> {
    match Path::parse(alloc, text) {
        Ok(path) => copied(alloc, &path),
        Err(PathFault::Empty) => String::from_str(alloc, "empty"),
        Err(PathFault::TooLong) => String::from_str(alloc, "too long"),
        Err(PathFault::BadChar { at }) => format!(in alloc; "char {at}"),
        Err(PathFault::BadPart { at }) => format!(in alloc; "part {at}"),
        Err(PathFault::Memory) => Err(AllocError),
    }
}

/// The text of a path's copy.
fn copied(alloc: Global, path: &Path) -> Result<String, AllocError> {
    let copy = path.try_clone()?;
    let word = if copy == *path { "path" } else { "another" };
    format!(in alloc; "{word} {}", copy.text())
}

/// Whether a path is above another.
pub fn above(alloc: Global, fields: &str) -> io::Result<String> {
    let (one, other) = cut(fields, '\t');
    let one = path_of(alloc, one)?;
    let is_above = one.is_above(&path_of(alloc, other)?);
    Ok(String::from_str(alloc, if is_above { "yes" } else { "no" })?)
}
