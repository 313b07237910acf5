//! The texts of configuration files.

use config_text::{Assignment, Line, assignments, lines};
use std::alloc::{AllocError, Global};

/// The lines that count, each with its number.
pub(crate) fn line_list(alloc: Global, bytes: &[u8]) -> Result<String, AllocError> {
    match lines(alloc, bytes) {
        Ok(lines) => lines_text(alloc, lines.as_slice()),
        Err(fault) => fault.to_string(alloc),
    }
}

fn lines_text(alloc: Global, lines: &[Line]) -> Result<String, AllocError> {
    let mut told = String::new(alloc);
    for line in lines {
        push_numbered(alloc, &mut told, line.number)?;
        told.push_str(line.text.as_str())?;
        told.push('|')?;
    }
    Ok(told)
}

fn push_numbered(alloc: Global, told: &mut String, number: u32) -> Result<(), AllocError> {
    told.push_str(format!(in alloc; "{number}:")?.as_str())
}

/// The assignments of a text, each with the number of its line. Where ` | ` stands in the text, what is
/// before it is an earlier file.
pub(crate) fn values(alloc: Global, text: &str) -> Result<String, AllocError> {
    let (before, text) = text.split_once(" | ").unwrap_or(("", text));
    match assignments(alloc, before.as_bytes(), &[]) {
        Ok(before) => values_behind(alloc, text, before.as_slice()),
        Err(fault) => fault.to_string(alloc),
    }
}

fn values_behind(alloc: Global, text: &str, before: &[Assignment]) -> Result<String, AllocError> {
    match assignments(alloc, text.as_bytes(), before) {
        Ok(found) => values_text(alloc, found.as_slice()),
        Err(fault) => fault.to_string(alloc),
    }
}

fn values_text(alloc: Global, found: &[Assignment]) -> Result<String, AllocError> {
    let mut told = String::new(alloc);
    for assignment in found {
        push_numbered(alloc, &mut told, assignment.line)?;
        told.push_str(assignment.key.as_str())?;
        told.push('=')?;
        told.push_str(assignment.value.as_str())?;
        told.push('|')?;
    }
    Ok(told)
}
