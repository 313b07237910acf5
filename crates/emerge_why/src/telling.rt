ghost use Rattle.std.specs.Prelude.{◌≡◌, ◌++◌, IfOk, OnOk, string_bytes};
ghost use Rattle.merge_report.specs.Shown.{shown};
ghost use Rattle.emerge_why.specs.Told.{IsTold, told_line};

use merge_report::shown;
use std::alloc::{AllocError, Global};

/// Lines as a text for a person: each behind the program's name, with each control character
/// escaped.
pub fn told(alloc: Global, lines: &[String]) -> Result<String, AllocError>
    ensures { IfOk result (λ t. IsTold (string_bytes t)) }
{
    let mut text = String::new(alloc);
    for line in lines {
        push_line(alloc, line.as_str(), &mut text)?;
    }
    Ok(text)
}

/// Puts a line behind the text.
fn push_line(alloc: Global, words: &str, text: &mut String) -> Result<(), AllocError>
    ensures { OnOk result (string_bytes text.new ≡
        string_bytes text.old ++ told_line (shown words.now)) }
{
    let words = shown(alloc, words)?;
    text.push_str("emerge: ")?;
    text.push_str(words.as_str())?;
    text.push_str("\n")
}

/// Puts some lines of fixed words behind the lines.
pub(crate) fn say_all(
    alloc: Global,
    lines: &mut Vec<String>,
    texts: &[&str],
) -> Result<(), AllocError> {
    for words in texts {
        say(alloc, lines, words)?;
    }
    Ok(())
}

/// Puts a line of fixed words behind the lines.
pub(crate) fn say(alloc: Global, lines: &mut Vec<String>, words: &str) -> Result<(), AllocError> {
    lines.push(String::from_str(alloc, words)?)?;
    Ok(())
}
