//! `emerge`: merges a package into a tree of files.
//!
//! The words are those of the command line of the whole product. The tree is the folder of the host
//! that `--tree` names, and the root of the host where it names none; the images are folders below
//! that of `--images`, and `--build-with CMD` has a program prepare each of them first. There are as
//! many builders as `--jobs` says, all over the same images. Words that are no command are answered over
//! an empty tree in memory. Behind a run that was refused, standard error tells why in plain words.
//! Where that is a terminal, one line tells how far a run has come that takes more than a second.
#![tactic(auto)]

mod telling;

ghost use Rattle.std.specs.Prelude.{◌<◌, length};
ghost use Rattle.build_pool.specs.Pool.{AreOnce};

use build_pool::{BuildPool, Builder, numbered_builders};
use emerge_run::{Ended, emerge};
use emerge_words::{Command, Host, Request, host_of, read};
use file_tree::{Sink, Tree};
use host_side::{CommandBuilder, FolderBuilder, HostSink, HostTree, Progress};
use merge_report::Status;
use std::alloc::{AllocError, Global};
use std::env;
use std::process::ExitCode;
use std::rt::Env;
use std::thread::Threads;
use telling::{
    is_watched, refuse, refused_line, shown_table, tell_no_memory, tell_table, tell_why,
};
use tree_mem::MemTree;

/// The status of a run that found no memory before it began.
const NO_MEMORY: u8 = 19;

fn main(rt: HostRuntime) -> ExitCode {
    match run(rt, rt, rt.alloc()) {
        Ok(code) => ExitCode::from(code),
        Err(_) => {
            tell_no_memory(&rt);
            ExitCode::from(NO_MEMORY)
        }
    }
}

/// Runs the words of the command line, and answers the status's number.
fn run<R: Threads + Send + Drop>(
    rt: HostRuntime,
    threads: R,
    alloc: Global,
) -> Result<u8, AllocError> {
    let words = words(&rt, alloc)?;
    match host_of(alloc, &words) {
        Ok(host) => run_on_host(rt, threads, alloc, &words, &host),
        Err(_) => run_in_memory(rt, alloc, &words),
    }
}

/// Runs a command over the folder of the host that it names.
fn run_on_host<R: Threads + Send + Drop>(
    rt: HostRuntime,
    threads: R,
    alloc: Global,
    words: &[String],
    host: &Host,
) -> Result<u8, AllocError>
    requires builders { 0 < host.now.builders }
{
    let name = host.tree.as_str();
    let progress = Progress::new(rt, is_watched(&rt));
    let plan = plan_of(alloc, words);
    match HostTree::open(rt, threads, name, progress, plan.as_deref()) {
        Ok(tree) => run_with_images(rt, alloc, words, host, tree, progress),
        Err(fault) => Ok(refuse(&rt, alloc, name, fault)),
    }
}

/// Runs a command over a tree with the builders that it names.
fn run_with_images<T: Tree + Send + Drop>(
    rt: HostRuntime,
    alloc: Global,
    words: &[String],
    host: &Host,
    tree: T,
    progress: Progress,
) -> Result<u8, AllocError>
    requires builders { 0 < host.now.builders }
{
    let images = host.images.as_str();
    match &host.build_with {
        Some(program) => {
            let make = |id: u32| CommandBuilder::new(rt, program.as_str(), images, id, progress);
            let builders = numbered_builders(alloc, host.builders, make)?;
            run_with(rt, alloc, words, tree, builders, progress)
        }
        None => {
            let make = |id: u32| FolderBuilder::new(rt, images, id, progress);
            let builders = numbered_builders(alloc, host.builders, make)?;
            run_with(rt, alloc, words, tree, builders, progress)
        }
    }
}

/// Runs a command over a tree with these builders.
fn run_with<T: Tree + Send + Drop, B: Builder + Send>(
    rt: HostRuntime,
    alloc: Global,
    words: &[String],
    tree: T,
    builders: Vec<B>,
    progress: Progress,
) -> Result<u8, AllocError>
    requires some { 0 < length builders.items }
    requires once { AreOnce B.number builders.items }
{
    let pool = BuildPool::new(alloc, builders)?;
    let out = HostSink::stdout(rt, progress);
    let end = end_of(alloc, words, tree, out, pool, progress.is_watched());
    progress.clear();
    Ok(told(&rt, alloc, words, end))
}

/// How a run ended, as far as the program tells of it.
#[derive(Drop)]
struct End {
    status: Status,
    /// The line that a text of the tree was refused for.
    line: Option<String>,
    /// What a plan that was only shown would do, where a person looks on.
    table: Option<String>,
}

/// The end of a run; `is_watched` says whether a person looks on.
fn end_of<T: Tree + Send + Drop, S: Sink + Send + Drop, B: Builder + Send>(
    alloc: Global,
    words: &[String],
    tree: T,
    out: S,
    pool: BuildPool<B>,
    is_watched: bool,
) -> End
    requires resting { 0 < length pool.resting }
{
    let Ended {
        status,
        mut tree,
        opening,
        plan,
        ..
    } = emerge(alloc, words, tree, out, pool);
    let line = refused_line(alloc, &mut tree, &status);
    let table = match is_watched {
        true => shown_table(alloc, &status, plan.as_ref(), &opening),
        false => None,
    };
    End {
        status,
        line,
        table,
    }
}

/// Tells why a run was refused, and answers the status's number.
fn told(rt: &HostRuntime, alloc: Global, words: &[String], end: End) -> u8 {
    let End {
        status,
        line,
        table,
    } = end;
    tell_table(rt, table.as_deref());
    tell_why(rt, alloc, words, &status, line.as_deref());
    number_of(status)
}

/// Runs words that name no folder over an empty tree in memory.
fn run_in_memory(rt: HostRuntime, alloc: Global, words: &[String]) -> Result<u8, AllocError> {
    let tree = MemTree::new(alloc, Vec::new(alloc)).map_err(|_| AllocError)?;
    let progress = Progress::new(rt, false);
    let make = |id: u32| FolderBuilder::new(rt, "", id, progress);
    let builders = numbered_builders(alloc, 1, make)?;
    run_with(rt, alloc, words, tree, builders, progress)
}

/// The status's number; its parts are given up by a call of their own, which keeps the proof small.
fn number_of(status: Status) -> u8 {
    let code = status.code();
    drop(status);
    code
}

/// The file that the plan comes from, where the words name one.
fn plan_of(alloc: Global, words: &[String]) -> Option<String> {
    let request = read(alloc, words).ok()?;
    let Request {
        command: Command::PlanFile { path },
        ..
    } = &request
    else {
        return None;
    };
    String::from_str(alloc, path.text()).ok()
}

/// The words after the program's name; none where they are no text.
fn words<R: Env + AllocGlobal>(rt: &R, alloc: Global) -> Result<Vec<String>, AllocError> {
    let mut words = Vec::new(alloc);
    let Ok(args) = env::args(rt) else {
        return Ok(words);
    };
    for word in args.skip(1) {
        words.push(word)?;
    }
    Ok(words)
}
