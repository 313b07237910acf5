use emerge_table::table_of;
use emerge_why::{why_locked, why_refused, why_unopened};
use file_tree::{Path, Tree};
use host_side::OpenFault;
use merge_report::Status;
use plan_lives::Plan;
use std::alloc::{AllocError, Global};
use std::io::IsTerminal;
use std::rt::Env;
use std::{env, str};
use vdb_record::Installed;

/// The status of a run whose tree another run holds.
const LOCKED: u8 = 21;

/// The status of a run whose tree can't be opened.
const NO_TREE: u8 = 22;

/// The variable of the environment that keeps explanations away, where it is 1.
const QUIET: &str = "EMERGE_QUIET";

/// What is told where a run found no memory before it began.
const NO_MEMORY: &str =
    "emerge: there was not enough memory to begin; nothing was changed: free some, and try again\n";

/// How many characters of a refused line are shown.
const MOST_SHOWN: usize = 200;

/// Whether no explanation is wanted.
fn is_quiet<R: Env + AllocGlobal>(rt: &R) -> bool {
    match env::var(rt, QUIET) {
        Ok(value) => value.as_str() == "1",
        Err(_) => false,
    }
}

/// Tells on standard error why a run was refused, and what to do next.
pub fn tell_why(
    rt: &HostRuntime,
    alloc: Global,
    words: &[String],
    status: &Status,
    line: Option<&str>,
) {
    if is_quiet(rt) {
        return;
    }
    tell(rt, why_refused(alloc, words, status, line));
}

/// Whether a person looks at standard error, and wants to be told.
pub fn is_watched(rt: &HostRuntime) -> bool {
    rt.stderr().is_terminal() && !is_quiet(rt)
}

/// The table of a plan that is only shown, where it changes anything.
pub fn shown_table(
    alloc: Global,
    status: &Status,
    plan: Option<&Plan>,
    opening: &[Installed],
) -> Option<String> {
    let Status::Ok { groups: 0 } = status else {
        return None;
    };
    let groups = plan?.groups();
    if groups.is_empty() {
        return None;
    }
    table_of(alloc, groups, opening).ok()
}

/// Prints a table on standard error.
pub fn tell_table(rt: &HostRuntime, table: Option<&str>) {
    if let Some(text) = table {
        print_error(rt, text);
    }
}

/// Says why there is no tree, and answers the status's number.
pub fn refuse(rt: &HostRuntime, alloc: Global, name: &str, fault: OpenFault) -> u8 {
    let is_quiet = is_quiet(rt);
    match fault {
        OpenFault::Locked => {
            tell(rt, why_locked(alloc, name, is_quiet));
            LOCKED
        }
        OpenFault::Failed(error) => {
            let text = match format!(in alloc; "{error}") {
                Ok(error) => why_unopened(alloc, name, error.as_str(), is_quiet),
                Err(fault) => Err(fault),
            };
            tell(rt, text);
            NO_TREE
        }
    }
}

/// Tells that a run found no memory before it began.
pub fn tell_no_memory(rt: &HostRuntime) {
    print_error(rt, NO_MEMORY);
}

/// Puts a text on standard error. Where there is no memory for it, the last line has told as much.
fn tell(rt: &HostRuntime, text: Result<String, AllocError>) {
    if let Ok(text) = text {
        print_error(rt, text.as_str());
    }
}

/// Where standard error is closed there is nobody to tell.
fn print_error(rt: &HostRuntime, text: &str) {
    match eprint!(rt; "{text}") {
        Ok(()) | Err(_) => {}
    }
}

/// The line that a text of the tree is refused for, as far as it is text.
pub fn refused_line<T: Tree>(alloc: Global, tree: &mut T, status: &Status) -> Option<String> {
    match status {
        Status::BadText { path, line } => line_at(alloc, tree, path, *line),
        _ => None,
    }
}

/// The beginning of a line of a file, which counts from 1.
fn line_at<T: Tree>(alloc: Global, tree: &mut T, path: &Path, number: u32) -> Option<String> {
    let before = number.checked_sub(1)?;
    let object = tree.read(path).ok()??;
    let text = str::from_utf8(&object.bytes).ok()?;
    let line = text.split('\n').nth(before as usize)?;
    line.chars().take(MOST_SHOWN).collect(alloc).ok()
}
