use crate::telling::say;
use crate::words::value_of;
use emerge_words::{MOST_BACKTRACK, MOST_FLAG_CHANGES, MOST_JOBS, MOST_LOAD};
use std::alloc::{AllocError, Global};

/// An option that takes a number, and from which to which.
#[derive(Clone, Copy)]
struct Range {
    name: &'static str,
    least: u32,
    most: u32,
}

/// The options that take numbers, in the order in which they are judged.
const RANGES: [Range; 4] = [
    Range {
        name: "jobs",
        least: 1,
        most: MOST_JOBS,
    },
    Range {
        name: "backtrack",
        least: 1,
        most: MOST_BACKTRACK,
    },
    Range {
        name: "flag-changes",
        least: 0,
        most: MOST_FLAG_CHANGES,
    },
    Range {
        name: "load",
        least: 1,
        most: MOST_LOAD,
    },
];

/// Why the text of an option is no number that it takes.
pub(crate) fn push_bad_number(
    alloc: Global,
    lines: &mut Vec<String>,
    words: &[String],
    text: &str,
) -> Result<(), AllocError> {
    for range in &RANGES {
        let Range { name, least, most } = range;
        if value_of(words, name) == Some(text) {
            lines.push(format!(in alloc; "{text} is no number that --{name} takes")?)?;
            lines.push(format!(in alloc;
                "give it a number from {least} to {most}; nothing was changed"
            )?)?;
            return Ok(());
        }
    }
    lines.push(format!(in alloc; "{text} is no number in the range of its option")?)?;
    say(alloc, lines, "correct it; nothing was changed")
}
