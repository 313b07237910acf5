ghost use Rattle.std.specs.Prelude.{◌≡◌, IfOk, IfErr, map, option_map, string_bytes, unwrap_or};
ghost use Rattle.std.specs.Prelude.{codes, []};
ghost use Rattle.clap.specs.Words.{all_of, found_of, kind_of, rows_of};
ghost use Rattle.emerge_words.specs.Grammar.{AreCut};
ghost use Rattle.emerge_words.specs.declared.line.LineFault.TheVariants.{Memory};
ghost use Rattle.emerge_words.specs.Lines.{has_flag, line_of, line_of_rows, line_value, text_of};

use crate::clap_app::words_app;
use clap::error::ErrorKind;
use clap::{ArgMatches, Error};
use std::alloc::{AllocError, Global};

/// What a list of words gives: which flags, the text of each option, and the further words.
#[derive(Drop)]
pub(crate) struct Line<'a> {
    pub(crate) pretend: bool,
    pub(crate) update: bool,
    pub(crate) repair: bool,
    pub(crate) keep_going: bool,
    pub(crate) unmerge: bool,
    pub(crate) jobs: Option<&'a str>,
    pub(crate) backtrack: Option<&'a str>,
    pub(crate) flag_changes: Option<&'a str>,
    pub(crate) load: Option<&'a str>,
    pub(crate) plan: Option<&'a str>,
    pub(crate) tree: Option<&'a str>,
    pub(crate) images: Option<&'a str>,
    pub(crate) build_with: Option<&'a str>,
    pub(crate) further: Vec<&'a str>,
}

/// Why there is no line.
pub(crate) enum LineFault {
    /// A flag or an option that there isn't, one that stands twice, or an option without its value.
    NotCut,
    Memory,
}

impl From<AllocError> for LineFault {
    ghost from_gives = { λ _ fault. fault ≡ Memory };

    fn from(_: AllocError) -> LineFault {
        LineFault::Memory
    }
}

/// Cuts the words into flags, options and further words.
pub(crate) fn read_line<'a>(alloc: Global, words: &'a [String]) -> Result<Line<'a>, LineFault>
    ensures cut { IfOk result (λ _. AreCut (map string_bytes words.entry.now)) }
    ensures line { IfOk result (λ line. line_value line ≡
        line_of (map string_bytes words.entry.now)) }
    ensures fault { IfErr result (λ fault. fault ≡ LineFault.NotCut →
        ¬ (AreCut (map string_bytes words.entry.now))) }
{
    let command = words_app(alloc)?;
    match command.try_get_matches_from(words) {
        Ok(matches) => Ok(line_of(alloc, &matches)?),
        Err(error) => Err(fault_of(&error)),
    }
}

/// The matches of `clap`, field by field.
fn line_of<'a>(alloc: Global, matches: &ArgMatches<'a>) -> Result<Line<'a>, AllocError>
    ensures { IfOk result (λ line. line_value line ≡
        line_of_rows (rows_of (found_of matches.now))) }
{
    let further = further_of(alloc, matches)?;
    Ok(Line {
        pretend: has_flag(matches, "pretend"),
        update: has_flag(matches, "update"),
        repair: has_flag(matches, "repair"),
        keep_going: has_flag(matches, "keep-going"),
        unmerge: has_flag(matches, "unmerge"),
        jobs: text_of(matches, "jobs"),
        backtrack: text_of(matches, "backtrack"),
        flag_changes: text_of(matches, "flag-changes"),
        load: text_of(matches, "load"),
        plan: text_of(matches, "plan"),
        tree: text_of(matches, "tree"),
        images: text_of(matches, "images"),
        build_with: text_of(matches, "build-with"),
        further,
    })
}

/// Whether a flag is given.
fn has_flag(matches: &ArgMatches<'_>, name: &str) -> bool
    ensures { result ≡ has_flag (rows_of (found_of matches.now)) name.now }
{
    match text_of(matches, name) {
        Some(text) => text == "true",
        None => false,
    }
}

/// The value of an option.
fn text_of<'a>(matches: &ArgMatches<'a>, name: &str) -> Option<&'a str>
    ensures { option_map (λ s. s.now) result ≡ text_of (rows_of (found_of matches.now)) name.now }
{
    matches.get_str(name)
}

/// All values of an argument.
fn all_of<'b, 'a>(matches: &'b ArgMatches<'a>, name: &str) -> Option<&'b [&'a str]>
    ensures { option_map (λ s. map (λ v. v.now) s.now) result ≡
        all_of name.now (rows_of (found_of matches.now)) }
{
    matches.get_raw(name)
}

/// The words that are neither a flag nor an option.
fn further_of<'a>(alloc: Global, matches: &ArgMatches<'a>) -> Result<Vec<&'a str>, AllocError>
    ensures { IfOk result (λ further. map (λ s. s.now) further.items ≡
        unwrap_or (all_of (codes "further") (rows_of (found_of matches.now))) []) }
{
    match all_of(matches, "further") {
        Some(words) => Vec::from_slice(alloc, words),
        None => Ok(Vec::new(alloc)),
    }
}

/// Want of memory, or that `clap` refuses the words.
fn fault_of(error: &Error) -> LineFault
    ensures memory { kind_of error.now ≡ ErrorKind.OutOfMemory → result ≡ LineFault.Memory }
    ensures cut { result ≡ LineFault.NotCut → ¬ (kind_of error.now ≡ ErrorKind.OutOfMemory) }
{
    match error.kind() {
        ErrorKind::OutOfMemory => LineFault::Memory,
        _ => LineFault::NotCut,
    }
}
