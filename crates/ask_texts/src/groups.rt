//! Groups: their words, and REQUIRED_USE.

use crate::cut;
use dep_group::{Shape, place, push_word, shape_of, words};
use pms_names::Flags;
use required_use::{RequiredFault, RequiredUse};
use std::alloc::{AllocError, Global};
use use_flags::Iuse;

/// The words of a text, each with its place before it: `1 || 4 (`.
pub(crate) fn places(alloc: Global, text: &str) -> Result<String, AllocError> {
    let found = words(alloc, text)?;
    let mut told = String::new(alloc);
    for (index, word) in found.iter().enumerate() {
        let at = format!(in alloc; "{} ", place(&found, index))?;
        push_word(&mut told, at.as_str(), word.text, "")?;
    }
    Ok(told)
}

/// What a word is to a text of groups. The first field tells whether words may have brackets.
pub(crate) fn shape(alloc: Global, fields: &str) -> Result<String, AllocError> {
    let (brackets, word) = cut(fields);
    String::from_str(alloc, name_of(shape_of(word, brackets == "brackets")))
}

fn name_of(shape: Shape) -> &'static str {
    match shape {
        Shape::Opens => "opens",
        Shape::Closes => "closes",
        Shape::Glued => "glued",
        Shape::AnyOf => "any of",
        Shape::ExactlyOne => "exactly one",
        Shape::AtMostOne => "at most one",
        Shape::When { on: true } => "when on",
        Shape::When { on: false } => "when off",
        Shape::Item => "item",
    }
}

/// The expressions of a text of REQUIRED_USE.
pub(crate) fn read(
    alloc: Global,
    text: &str,
    empty_holds: bool,
) -> Result<RequiredUse, RequiredFault> {
    RequiredUse::parse(alloc, text, empty_holds)
}

/// A text of REQUIRED_USE as it is printed.
pub(crate) fn required(alloc: Global, text: &str) -> Result<String, AllocError> {
    match read(alloc, text, false) {
        Ok(required) => required.print(alloc),
        Err(fault) => fault.to_string(alloc),
    }
}

/// Whether the text of the last field holds with the flags of the first one, and the first
/// expression that is broken.
pub(crate) fn broken(alloc: Global, fields: &str, empty_holds: bool) -> Result<String, AllocError> {
    let (flags, text) = cut(fields);
    match read(alloc, text, empty_holds) {
        Ok(required) => broken_with(alloc, &required, flags),
        Err(fault) => fault.to_string(alloc),
    }
}

fn broken_with(alloc: Global, required: &RequiredUse, flags: &str) -> Result<String, AllocError> {
    match Iuse::parse(alloc, flags) {
        Ok(iuse) => broken_text(alloc, required, &iuse.flags),
        Err(fault) => fault.to_string(alloc),
    }
}

fn broken_text(alloc: Global, required: &RequiredUse, flags: &Flags) -> Result<String, AllocError> {
    let is_so = if required.holds(flags) { "yes" } else { "no" };
    match required.first_broken(flags) {
        Some(at) => format!(in alloc; "{is_so} {at}"),
        None => String::from_str(alloc, is_so),
    }
}
