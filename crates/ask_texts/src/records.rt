//! The texts of an installed package's record.

use crate::yes_or_no;
use pms_names::Flags;
use std::alloc::{AllocError, Global};
use vdb_contents::{Content, Owned, read_contents};
use vdb_values::{read_eapi, read_flags, read_known, read_slots};

/// The paths that a text of CONTENTS owns, each with the MD5 of its file or the target of its link.
pub(crate) fn contents(alloc: Global, text: &[u8]) -> Result<String, AllocError> {
    match read_contents(alloc, text) {
        Ok(owned) => owned_text(alloc, owned.as_slice()),
        Err(fault) => fault.to_string(alloc),
    }
}

fn owned_text(alloc: Global, owned: &[Owned]) -> Result<String, AllocError> {
    let mut told = String::new(alloc);
    for one in owned {
        told.push_str(one.path.text())?;
        told.push('=')?;
        push_content(alloc, &mut told, &one.content)?;
        told.push('|')?;
    }
    Ok(told)
}

fn push_content(alloc: Global, told: &mut String, content: &Content) -> Result<(), AllocError> {
    match content {
        Content::File { md5 } => told.push_str(hex::encode(alloc, md5.as_slice())?.as_str()),
        Content::Link { target } => told.push_str(target.as_str()),
    }
}

/// The edition of a text of EAPI.
pub(crate) fn eapi(alloc: Global, text: &str) -> Result<String, AllocError> {
    match read_eapi(alloc, text)? {
        Some(edition) => String::from_str(alloc, edition.text()),
        None => String::from_str(alloc, "none"),
    }
}

/// The slot and the subslot of a text of SLOT.
pub(crate) fn slots(alloc: Global, text: &str) -> Result<String, AllocError> {
    match read_slots(alloc, text)? {
        Some(value) => format!(in alloc; "{} {}", value.slot.text(), value.subslot.text()),
        None => String::from_str(alloc, "none"),
    }
}

/// The flags of a text of USE.
pub(crate) fn enabled(alloc: Global, text: &str) -> Result<String, AllocError> {
    match read_flags(alloc, text) {
        Ok(flags) => flags_text(alloc, &flags),
        Err(fault) => fault.to_string(alloc),
    }
}

/// The flags of a text of IUSE.
pub(crate) fn known(alloc: Global, text: &str) -> Result<String, AllocError> {
    match read_known(alloc, text) {
        Ok(flags) => flags_text(alloc, &flags),
        Err(fault) => fault.to_string(alloc),
    }
}

fn flags_text(alloc: Global, flags: &Flags) -> Result<String, AllocError> {
    let mut told = String::new(alloc);
    push_flags(&mut told, flags)?;
    Ok(told)
}

/// Writes each flag and a space.
pub(crate) fn push_flags(told: &mut String, flags: &Flags) -> Result<(), AllocError> {
    for flag in flags.list() {
        told.push_str(flag.text())?;
        told.push(' ')?;
    }
    Ok(())
}
