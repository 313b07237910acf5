//! Versions: read, compared, and matched by `=..*`.

use crate::{cut, yes_or_no};
use pms_grammar::{is_version, version_stop};
use pms_version::Version;
use std::alloc::{AllocError, Global};
use std::cmp::Ordering;

/// The text of the version's copy.
pub(crate) fn version(alloc: Global, text: &str) -> Result<String, AllocError> {
    match Version::parse(alloc, text) {
        Ok(version) => copy_text(alloc, &version),
        Err(fault) => fault.to_string(alloc),
    }
}

fn copy_text(alloc: Global, version: &Version) -> Result<String, AllocError> {
    let copy = version.try_clone()?;
    String::from_str(alloc, copy.text())
}

pub(crate) fn is_one(alloc: Global, text: &str) -> Result<String, AllocError> {
    yes_or_no(alloc, is_version(text.as_bytes()))
}

/// Where a text stops being the beginning of a version, or `none` where it is one.
pub(crate) fn stop(alloc: Global, text: &str) -> Result<String, AllocError> {
    match version_stop(text.as_bytes()) {
        Some(at) => format!(in alloc; "{at}"),
        None => String::from_str(alloc, "none"),
    }
}

/// Of two versions, as the query asks: their order, whether they are equal but for their revisions, or
/// whether the first with an asterisk behind it matches the second.
pub(crate) fn of_two(alloc: Global, query: &str, fields: &str) -> Result<String, AllocError> {
    let (one, other) = cut(fields);
    match Version::parse(alloc, one) {
        Ok(one) => against(alloc, query, &one, other),
        Err(fault) => fault.to_string(alloc),
    }
}

fn against(alloc: Global, query: &str, one: &Version, other: &str) -> Result<String, AllocError> {
    match Version::parse(alloc, other) {
        Ok(other) => verdict(alloc, query, one, &other),
        Err(fault) => fault.to_string(alloc),
    }
}

fn verdict(
    alloc: Global,
    query: &str,
    one: &Version,
    other: &Version,
) -> Result<String, AllocError> {
    match query {
        "compare" => String::from_str(alloc, sign(one.compare(other))),
        "begins" => yes_or_no(alloc, one.begins(other)),
        _ => yes_or_no(alloc, one.equal_without_revision(other)),
    }
}

fn sign(order: Ordering) -> &'static str {
    match order {
        Ordering::Less => "<",
        Ordering::Equal => "=",
        Ordering::Greater => ">",
    }
}
