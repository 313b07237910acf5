//! Sets of flags, the items of IUSE, and changes of a set.

use dep_group::push_word;
use pms_names::{Flag, Flags};
use std::alloc::{AllocError, Global};
use use_flags::{Change, Iuse, apply, changes};

/// Puts flags into an empty set, or takes those out that have a hyphen before them: a plus for each
/// one that changed the set, a dot for each other one, and then what the set's copy lists.
pub(crate) fn set(alloc: Global, text: &str) -> Result<String, AllocError> {
    let mut flags = Flags::new(alloc);
    let mut told = String::new(alloc);
    for word in text.split_whitespace() {
        let is_changed = put(alloc, &mut flags, word)?;
        told.push(if is_changed { '+' } else { '.' })?;
    }
    push_flags(&mut told, &flags.try_clone()?)?;
    Ok(told)
}

/// Whether the set is another one now.
fn put(alloc: Global, flags: &mut Flags, word: &str) -> Result<bool, AllocError> {
    match word.strip_prefix('-') {
        Some(name) => Ok(take(alloc, flags, name)),
        None => insert(alloc, flags, word),
    }
}

fn take(alloc: Global, flags: &mut Flags, name: &str) -> bool {
    match Flag::parse(alloc, name) {
        Ok(flag) => flags.remove(&flag),
        Err(_) => false,
    }
}

fn insert(alloc: Global, flags: &mut Flags, name: &str) -> Result<bool, AllocError> {
    match Flag::parse(alloc, name) {
        Ok(flag) => flags.insert(flag),
        Err(_) => Ok(false),
    }
}

/// Writes the flags in the order of the set, a space before each.
pub(crate) fn push_flags(told: &mut String, flags: &Flags) -> Result<(), AllocError> {
    for flag in flags.list() {
        push_word(told, "", flag.text(), "")?;
    }
    Ok(())
}

/// The flags of a text of IUSE, a plus before each that is on by default.
pub(crate) fn iuse(alloc: Global, text: &str) -> Result<String, AllocError> {
    match Iuse::parse(alloc, text) {
        Ok(iuse) => iuse_text(alloc, &iuse),
        Err(fault) => fault.to_string(alloc),
    }
}

fn iuse_text(alloc: Global, iuse: &Iuse) -> Result<String, AllocError> {
    let mut told = String::new(alloc);
    for flag in iuse.flags.list() {
        let sign = if iuse.on.has(flag) { "+" } else { "" };
        push_word(&mut told, sign, flag.text(), "")?;
    }
    Ok(told)
}

/// The changes that a text says, in their order.
pub(crate) fn list_of_changes(alloc: Global, text: &str) -> Result<String, AllocError> {
    match changes(alloc, text) {
        Ok(changes) => changes_text(alloc, changes.as_slice()),
        Err(fault) => fault.to_string(alloc),
    }
}

fn changes_text(alloc: Global, changes: &[Change]) -> Result<String, AllocError> {
    let mut told = String::new(alloc);
    for change in changes {
        match change {
            Change::Add(flag) => push_word(&mut told, "", flag.text(), "")?,
            Change::Take(flag) => push_word(&mut told, "-", flag.text(), "")?,
            Change::Clear => push_word(&mut told, "-*", "", "")?,
        }
    }
    Ok(told)
}

/// What the changes of the text make of an empty set.
pub(crate) fn applied(alloc: Global, text: &str) -> Result<String, AllocError> {
    match changes(alloc, text) {
        Ok(changes) => applied_text(alloc, changes.as_slice()),
        Err(fault) => fault.to_string(alloc),
    }
}

fn applied_text(alloc: Global, changes: &[Change]) -> Result<String, AllocError> {
    let mut flags = Flags::new(alloc);
    apply(&mut flags, changes)?;
    let mut told = String::new(alloc);
    push_flags(&mut told, &flags)?;
    Ok(told)
}
