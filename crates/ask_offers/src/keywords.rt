//! Which keywords are accepted, of what is configured.

use basics::Text;
use config_text::Assignment;
use profile_lines::Item;
use std::alloc::{AllocError, Global};
use visible_rules::KeywordLine;

/// Which keywords are accepted.
#[derive(Drop)]
pub(crate) struct Accepted {
    pub(crate) standing: Vec<Text>,
    pub(crate) bare: Vec<Text>,
    pub(crate) lines: Vec<KeywordLine>,
}

/// What these variables and lines accept.
pub(crate) fn accepted_of(
    alloc: Global,
    conf: &[Assignment],
    defaults: &[Assignment],
    items: Vec<Item>,
) -> Result<Accepted, AllocError> {
    let arch = value_of(conf, defaults, "ARCH");
    let own = format!(in alloc; "~{arch}")?;
    let standing = words_of(alloc, value_of(conf, defaults, "ACCEPT_KEYWORDS"))?;
    let bare = words_of(alloc, own.as_str())?;
    let lines = lines_of(alloc, items)?;
    Ok(Accepted {
        standing,
        bare,
        lines,
    })
}

fn words_of(alloc: Global, text: &str) -> Result<Vec<Text>, AllocError> {
    let mut words = Vec::new(alloc);
    for word in text.split_whitespace() {
        words.push(Text::new(alloc, word)?)?;
    }
    Ok(words)
}

/// The lines of keywords, each with its atom.
fn lines_of(alloc: Global, items: Vec<Item>) -> Result<Vec<KeywordLine>, AllocError> {
    let mut lines = Vec::new(alloc);
    for Item { atom, keywords, .. } in items {
        if let Some(atom) = atom {
            lines.push(KeywordLine {
                atom,
                words: keywords,
            })?;
        }
    }
    Ok(lines)
}

/// The last value of a variable in `make.conf`, or else in the profile, or else nothing.
fn value_of<'a>(conf: &'a [Assignment], defaults: &'a [Assignment], key: &str) -> &'a str {
    match last_of(conf, key) {
        Some(value) => value,
        None => last_of(defaults, key).unwrap_or(""),
    }
}

fn last_of<'a>(set: &'a [Assignment], key: &str) -> Option<&'a str> {
    let mut last = None;
    for assignment in set {
        if assignment.key.as_str() == key {
            last = Some(assignment.value.as_str());
        }
    }
    last
}
