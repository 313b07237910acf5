//! What the variables of configuration files come to.
//!
//! The text of a query has `;` between its parts: what is asked, and each file. The lines of a file
//! are its path, and its assignments KEY=VALUE, each in the line of its number from 1.

use basics::Text;
use config_text::Assignment;
use config_vars::{FileVars, VarFault, expanded, flag_of, judge, last_value, stacked};
use file_tree::Path;
use std::alloc::{AllocError, Global};

/// What the query asks of the variables of the text.
pub(crate) fn told(alloc: Global, query: &str, text: &str) -> Result<String, AllocError> {
    let (asked, files) = text.split_once(';').unwrap_or((text, ""));
    let files = read_files(alloc, files)?;
    match query {
        "stacked" => words_text(alloc, &stacked(alloc, &files, asked)?),
        "expanded" => words_text(alloc, &expanded(alloc, &files)?),
        "last" => value_text(alloc, last_value(&files, asked)),
        "flag_of" => flag_text(alloc, asked),
        _ => judged(alloc, &files),
    }
}

fn read_files(alloc: Global, text: &str) -> Result<Vec<FileVars>, AllocError> {
    let mut files = Vec::new(alloc);
    for part in text.split(';') {
        if !part.is_empty() {
            files.push(read_file(alloc, part)?)?;
        }
    }
    Ok(files)
}

fn read_file(alloc: Global, text: &str) -> Result<FileVars, AllocError> {
    let (path, rest) = text.split_once('\n').unwrap_or((text, ""));
    let path = Path::parse(alloc, path).map_err(|_| AllocError)?;
    let mut assigned = Vec::new(alloc);
    let mut line: u32 = 1;
    for part in rest.split('\n') {
        if let Some((key, value)) = part.split_once('=') {
            assigned.push(assignment(alloc, line, key, value)?)?;
        }
        line = line.saturating_add(1);
    }
    Ok(FileVars { path, assigned })
}

fn assignment(alloc: Global, line: u32, key: &str, value: &str) -> Result<Assignment, AllocError> {
    let key = Text::new(alloc, key)?;
    let value = Text::new(alloc, value)?;
    Ok(Assignment { line, key, value })
}

/// Each word and a space.
fn words_text(alloc: Global, words: &[&str]) -> Result<String, AllocError> {
    let mut told = String::new(alloc);
    for word in words {
        told.push_str(word)?;
        told.push(' ')?;
    }
    Ok(told)
}

fn value_text(alloc: Global, value: Option<&str>) -> Result<String, AllocError> {
    match value {
        Some(value) => format!(in alloc; "={value}"),
        None => String::from_str(alloc, "none"),
    }
}

/// The flag of a variable and a word with a space between them.
fn flag_text(alloc: Global, asked: &str) -> Result<String, AllocError> {
    let (variable, word) = asked.split_once(' ').unwrap_or((asked, ""));
    let flag = flag_of(alloc, variable, word)?;
    String::from_str(alloc, flag.as_str())
}

fn judged(alloc: Global, files: &[FileVars]) -> Result<String, AllocError> {
    match judge(alloc, files) {
        Ok(()) => String::from_str(alloc, "ok"),
        Err(VarFault::Value { path, line }) => format!(in alloc; "{} {line}", path.text()),
        Err(VarFault::Memory) => Err(AllocError),
    }
}
