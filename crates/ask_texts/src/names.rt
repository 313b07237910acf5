//! Categories, names of packages, slots and flags.

use crate::yes_or_no;
use pms_names::{Category, Flag, NameFault, PackageName, SlotName, is_version_text};
use pms_slot::{SlotValue, print_slots};
use std::alloc::{AllocError, Global};

pub(crate) fn category(alloc: Global, text: &str) -> Result<String, AllocError> {
    match Category::parse(alloc, text) {
        Ok(name) => String::from_str(alloc, name.text()),
        Err(fault) => words(alloc, &fault),
    }
}

pub(crate) fn package(alloc: Global, text: &str) -> Result<String, AllocError> {
    match PackageName::parse(alloc, text) {
        Ok(name) => String::from_str(alloc, name.text()),
        Err(fault) => words(alloc, &fault),
    }
}

pub(crate) fn slot_name(alloc: Global, text: &str) -> Result<String, AllocError> {
    match SlotName::parse(alloc, text) {
        Ok(name) => String::from_str(alloc, name.text()),
        Err(fault) => words(alloc, &fault),
    }
}

pub(crate) fn flag(alloc: Global, text: &str) -> Result<String, AllocError> {
    match Flag::parse(alloc, text) {
        Ok(name) => String::from_str(alloc, name.text()),
        Err(fault) => words(alloc, &fault),
    }
}

fn words(alloc: Global, fault: &NameFault) -> Result<String, AllocError> {
    fault.to_string(alloc)
}

pub(crate) fn is_version(alloc: Global, text: &str) -> Result<String, AllocError> {
    yes_or_no(alloc, is_version_text(text))
}

/// A value of SLOT as it is printed again, or `none`.
pub(crate) fn slot(alloc: Global, text: &str) -> Result<String, AllocError> {
    match SlotValue::read(alloc, text.as_bytes())? {
        Some(value) => print_slots(alloc, &value.slot, &value.subslot),
        None => String::from_str(alloc, "none"),
    }
}
