//! Programs that are asked line by line: each line of the input is a case, and one line is printed
//! for it. What they tell of trees is read and printed as `trees.rt` says.
//!
//! **A contract sees** nothing of these calls: the programs that tests ask stand on them, and no
//! other crate.
//!
//! **Proved**: that they are safe.
//!
//! **Only tested**: what they read and print, by the tests that ask those programs.
//!
//! ```
//! answer_each(rt, alloc, answer)
//! ```
#![tactic(auto)]

mod trees;

use std::alloc::{AllocError, Global};
use std::io;
use std::io::{BufRead, BufReader, Write};
use std::process::ExitCode;
pub use trees::{
    THEN, bytes_of, entries_of, entry_of, kind_of, letter_of, number_of, objects_of, path_of,
    push_between, push_hex, push_object, small_number_of,
};

/// The status where a line could not be read or answered, or the answers not be printed.
const FAILED: u8 = 1;

/// Prints what is answered to each line of the input, a line for each.
pub fn answer_each<R: Input + Print, F: Fn(Global, &str) -> io::Result<String>>(
    rt: &R,
    alloc: Global,
    answer: F,
) -> io::Result<()>
    requires callable { F.IsAlwaysCallable answer }
{
    let mut text = String::new(alloc);
    for line in BufReader::new(alloc, rt.reader())?.lines(alloc) {
        let line = line?;
        let answer = answer(alloc, line.as_str())?;
        text.push_str(answer.as_str())?;
        text.push('\n')?;
    }
    io::writer(rt).write_all(text.as_bytes())
}

/// How a program ends that ran so.
pub fn exit_of(run: io::Result<()>) -> ExitCode {
    match run {
        Ok(()) => ExitCode::SUCCESS,
        Err(_) => ExitCode::from(FAILED),
    }
}

/// The error of a line that is not in form.
pub fn not_in_form() -> io::Error {
    io::Error::new(io::ErrorKind::InvalidData, "a line is not in form")
}

/// A text before and behind the first of these.
pub fn cut(text: &str, at: char) -> (&str, &str) {
    text.split_once(at).unwrap_or((text, ""))
}

/// The text with a newline for each `\n`.
pub fn unescaped(alloc: Global, text: &str) -> Result<String, AllocError> {
    text.replace(alloc, "\\n", "\n")
}

/// The text with `\n` for each newline.
pub fn escaped(alloc: Global, text: &str) -> Result<String, AllocError> {
    text.replace(alloc, '\n', "\\n")
}
