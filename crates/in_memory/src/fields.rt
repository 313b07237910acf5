//! The fields of a case.

use std::alloc::{AllocError, Global};

/// A text before and behind its first space.
pub fn cut(text: &str) -> (&str, &str) {
    text.split_once(' ').unwrap_or((text, ""))
}

/// Whether each of these fields begins with the name of one.
pub fn are_known(fields: &str) -> bool {
    for field in fields.split('\t') {
        if !is_known(cut(field).0) {
            return false;
        }
    }
    true
}

fn is_known(name: &str) -> bool {
    match name {
        "word" | "tree" | "image" | "stop" | "fail" | "write" | "broken" | "watch" | "" => true,
        _ => false,
    }
}

/// What the first field of this name says, if there is one.
pub fn value_of<'a>(fields: &'a str, name: &str) -> Option<&'a str> {
    for field in fields.split('\t') {
        let (first, value) = cut(field);
        if first == name {
            return Some(value);
        }
    }
    None
}

/// What is meant by a text with escapes.
pub fn unescaped(alloc: Global, text: &str) -> Result<String, AllocError> {
    let mut plain = String::new(alloc);
    let mut is_escaped = false;
    for letter in text.chars() {
        if is_escaped {
            plain.push(meant_by(letter))?;
            is_escaped = false;
        } else if letter == '\\' {
            is_escaped = true;
        } else {
            plain.push(letter)?;
        }
    }
    Ok(plain)
}

/// What a letter behind a backslash means.
fn meant_by(letter: char) -> char {
    match letter {
        't' => '\t',
        'n' => '\n',
        _ => letter,
    }
}

/// Writes a text with escapes.
pub fn push_escaped(text: &mut String, plain: &str) -> Result<(), AllocError> {
    for letter in plain.chars() {
        match letter {
            '\t' => text.push_str("\\t")?,
            '\n' => text.push_str("\\n")?,
            '\\' => text.push_str("\\\\")?,
            _ => text.push(letter)?,
        }
    }
    Ok(())
}
