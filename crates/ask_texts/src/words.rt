//! The words of the command line.

use emerge_words::{Command, Request, WordFault, read};
use std::alloc::{AllocError, Global};

/// Of the words of a line: the command that they are, how it shall run, or where the host has the tree
/// and the images, as the query asks.
pub(crate) fn told(alloc: Global, query: &str, line: &str) -> Result<String, AllocError> {
    let words = words_of(alloc, line)?;
    match read(alloc, words.as_slice()) {
        Ok(request) => request_text(alloc, query, &request),
        Err(fault) => fault_text(alloc, &fault),
    }
}

fn words_of(alloc: Global, line: &str) -> Result<Vec<String>, AllocError> {
    let mut words = Vec::new(alloc);
    for word in line.split_whitespace() {
        words.push(String::from_str(alloc, word)?)?;
    }
    Ok(words)
}

fn request_text(alloc: Global, query: &str, request: &Request) -> Result<String, AllocError> {
    match query {
        "run" => run_text(alloc, request),
        "host" => host_text(alloc, request),
        _ => command_text(alloc, &request.command),
    }
}

fn command_text(alloc: Global, command: &Command) -> Result<String, AllocError> {
    match command {
        Command::Merge {
            atoms,
            world,
            update,
            repair,
            backtrack,
            flips,
        } => format!(in alloc;
            "merge {} {world} {update} {repair} {backtrack} {flips}",
            atoms.len()
        ),
        Command::PlanFile { path } => format!(in alloc; "plan {}", path.text()),
        Command::Unmerge { atoms } => format!(in alloc; "unmerge {}", atoms.len()),
        Command::Load { n } => format!(in alloc; "load {n}"),
    }
}

fn run_text(alloc: Global, request: &Request) -> Result<String, AllocError> {
    let pretend = request.pretend;
    let jobs = request.jobs;
    let keep_going = request.keep_going;
    format!(in alloc; "{pretend} {jobs} {keep_going}")
}

fn host_text(alloc: Global, request: &Request) -> Result<String, AllocError> {
    let tree = request.tree.as_str();
    let images = request.images.as_str();
    let build_with = match &request.build_with {
        Some(program) => program.as_str(),
        None => "nothing",
    };
    format!(in alloc; "{tree} {images} {build_with}")
}

fn fault_text(alloc: Global, fault: &WordFault) -> Result<String, AllocError> {
    match fault {
        WordFault::Usage => String::from_str(alloc, "usage"),
        WordFault::BadAtom { word } => format!(in alloc; "bad atom {}", word.as_str()),
        WordFault::BadNumber { word } => format!(in alloc; "bad number {}", word.as_str()),
        WordFault::Memory => Err(AllocError),
    }
}
