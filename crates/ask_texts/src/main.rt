//! What the readers of texts answer: of versions, names, atoms, flags and groups, of the texts of
//! files and of the words of the command line, and what variables come to over files.
//!
//! Each line of its input asks for one call: the name of a query, a space, and its text, in which
//! ` | ` stands between two fields. A byte of the text may be written as `%` and two hexadecimal
//! digits, and a `%` and a control byte are, in the lines that it prints, too: one for each, with the
//! value as it is printed, or the words of the fault.
#![tactic(auto)]

mod atoms;
mod cache;
mod config;
mod flags;
mod groups;
mod names;
mod records;
mod settings;
mod trees;
mod variables;
mod versions;
mod words;

use ask_lines::{answer_each, exit_of};
use percent_encoding::{AsciiSet, CONTROLS, percent_decode, percent_encode};
use std::alloc::{AllocError, Global};
use std::io;
use std::process::ExitCode;

/// The bytes that are escaped.
const ESCAPED: AsciiSet = percent_encoding::ascii_set!(CONTROLS.add(b'%'));

fn main(rt: HostRuntime) -> ExitCode {
    exit_of(answer_each(&rt, rt.alloc(), answer_line))
}

/// What is answered to a line, both with their escapes.
fn answer_line(alloc: Global, line: &str) -> io::Result<String> {
    let (query, escaped) = line.split_once(' ').unwrap_or((line, ""));
    let mut bytes = Vec::new(alloc);
    percent_decode(escaped.as_bytes()).append_to(&mut bytes)?;
    let answer = answer(alloc, query, bytes.as_slice())?;
    let mut text = String::new(alloc);
    percent_encode(answer.as_bytes(), ESCAPED).append_to(&mut text)?;
    Ok(text)
}

fn answer(alloc: Global, query: &str, bytes: &[u8]) -> Result<String, AllocError> {
    match query {
        "lines" => config::line_list(alloc, bytes),
        "contents" => records::contents(alloc, bytes),
        "pairs" => cache::pair_list(alloc, bytes),
        "fields" => cache::fields(alloc, bytes),
        "entry" => cache::entry(alloc, bytes),
        _ => match str::from_utf8(bytes) {
            Ok(text) => of_files(alloc, query, text),
            Err(_) => String::from_str(alloc, "no query"),
        },
    }
}

fn of_files(alloc: Global, query: &str, text: &str) -> Result<String, AllocError> {
    match query {
        "config" => config::values(alloc, text),
        "eapi" => records::eapi(alloc, text),
        "slots" => records::slots(alloc, text),
        "use" => records::enabled(alloc, text),
        "known" => records::known(alloc, text),
        "command" | "run" | "host" => words::told(alloc, query, text),
        "stacked" | "expanded" | "last" | "flag_of" | "judge" => variables::told(
            alloc, query, text,
        ),
        _ => of_names(alloc, query, text),
    }
}

fn of_names(alloc: Global, query: &str, text: &str) -> Result<String, AllocError> {
    match query {
        "version" => versions::version(alloc, text),
        "stop" => versions::stop(alloc, text),
        "is_version" => versions::is_one(alloc, text),
        "compare" | "begins" | "same_base" => versions::of_two(alloc, query, text),
        "category" => names::category(alloc, text),
        "package" => names::package(alloc, text),
        "slot_name" => names::slot_name(alloc, text),
        "flag" => names::flag(alloc, text),
        "slot" => names::slot(alloc, text),
        "version_text" => names::is_version(alloc, text),
        _ => of_flags(alloc, query, text),
    }
}

fn of_flags(alloc: Global, query: &str, text: &str) -> Result<String, AllocError> {
    match query {
        "set" => flags::set(alloc, text),
        "iuse" => flags::iuse(alloc, text),
        "changes" => flags::list_of_changes(alloc, text),
        "applied" => flags::applied(alloc, text),
        "settings" => settings::settings(alloc, text),
        "atom" => atoms::atom(alloc, text),
        "id" => atoms::id(alloc, text),
        "matches" => atoms::matched(alloc, text),
        "bound" => atoms::bound(alloc, text),
        _ => of_groups(alloc, query, text),
    }
}

fn of_groups(alloc: Global, query: &str, text: &str) -> Result<String, AllocError> {
    match query {
        "words" => groups::places(alloc, text),
        "shape" => groups::shape(alloc, text),
        "depend" => trees::depend(alloc, text),
        "truth" => trees::truth(alloc, text, false),
        "truth_if_empty_holds" => trees::truth(alloc, text, true),
        "leaves" => trees::leaves(alloc, text),
        "required" => groups::required(alloc, text),
        "broken" => groups::broken(alloc, text, false),
        "broken_if_empty_holds" => groups::broken(alloc, text, true),
        _ => String::from_str(alloc, "no query"),
    }
}

/// The first field, and what stands behind it.
fn cut(fields: &str) -> (&str, &str) {
    fields.split_once(" | ").unwrap_or((fields, ""))
}

fn yes_or_no(alloc: Global, is_so: bool) -> Result<String, AllocError> {
    String::from_str(alloc, if is_so { "yes" } else { "no" })
}
