//! Cases that are run, and their answers.

ghost use Rattle.std.specs.Prelude.{◌<◌, length};

use crate::cases::{pool_of, sink_of, tree_of, watched_of, words_of};
use crate::fields::push_escaped;
use build_pool::{BuildPool, Builder};
use emerge_run::{Ended, emerge};
use file_tree::{Kind, Object, Path, Sink, Tree};
use merge_report::Status;
use recovery::{RecoverFault, Recovered, recover};
use std::alloc::{AllocError, Global};
use tree_mem::{ImageFault, MemSink, MemTree};

/// What a run came to, without the parts of its end that are not told.
#[derive(Drop)]
struct Run<T, S> {
    code: u8,
    out: S,
    history: Vec<u32>,
    acknowledged: Vec<u32>,
    resting: usize,
    faults: u128,
    tree: T,
}

/// The answer to a run with these fields.
pub fn answer_run(alloc: Global, fields: &str) -> Option<String> {
    let watched = watched_of(alloc, fields)?;
    let run = run_of(alloc, fields)?;
    text_of(alloc, &run, &watched).ok()
}

/// The run that these fields name.
fn run_of(alloc: Global, fields: &str) -> Option<Run<MemTree, MemSink>> {
    let words = words_of(alloc, fields)?;
    let tree = tree_of(alloc, fields)?;
    let out = sink_of(alloc, fields)?;
    let pool = pool_of(alloc, fields)?;
    Some(run_words(alloc, &words, tree, out, pool))
}

/// Runs these words.
fn run_words<T: Tree + Send, S: Sink + Send, B: Builder + Send>(
    alloc: Global,
    words: &[String],
    tree: T,
    out: S,
    pool: BuildPool<B>,
) -> Run<T, S>
    requires resting { 0 < length pool.resting }
{
    let Ended {
        status,
        tree,
        out,
        pool,
        history,
        acknowledged,
        ..
    } = emerge(alloc, words, tree, out, pool);
    Run {
        code: number_of(status),
        out,
        history,
        acknowledged,
        resting: pool.resting(),
        faults: pool.faults(),
        tree,
    }
}

/// The status's number; its parts are given up by a call of their own, which keeps the proof small.
fn number_of(status: Status) -> u8 {
    let code = status.code();
    drop(status);
    code
}

fn text_of(
    alloc: Global,
    run: &Run<MemTree, MemSink>,
    watched: &[Path],
) -> Result<String, AllocError> {
    let mut text = String::new(alloc);
    push_run(alloc, &mut text, run)?;
    push_tree(alloc, &mut text, &run.tree, watched)?;
    Ok(text)
}

fn push_run(
    alloc: Global,
    text: &mut String,
    run: &Run<MemTree, MemSink>,
) -> Result<(), AllocError> {
    push_number(alloc, text, "code ", u128::from(run.code))?;
    push_said(text, run.out.bytes())?;
    push_groups(alloc, text, "\thistory", &run.history)?;
    push_groups(alloc, text, "\tacknowledged", &run.acknowledged)?;
    push_number(alloc, text, "\tresting ", run.resting as u128)?;
    push_number(alloc, text, "\tfaults ", run.faults)
}

/// What was written. It is made of texts, so the other arm never comes.
fn push_said(text: &mut String, bytes: &[u8]) -> Result<(), AllocError> {
    text.push_str("\tsaid ")?;
    match str::from_utf8(bytes) {
        Ok(said) => push_escaped(text, said),
        Err(_) => Err(AllocError),
    }
}

fn push_number(
    alloc: Global,
    text: &mut String,
    name: &str,
    number: u128,
) -> Result<(), AllocError> {
    text.push_str(name)?;
    let digits = format!(in alloc; "{number}")?;
    text.push_str(digits.as_str())
}

/// A name, and behind it the numbers of groups.
fn push_groups(
    alloc: Global,
    text: &mut String,
    name: &str,
    groups: &[u32],
) -> Result<(), AllocError> {
    text.push_str(name)?;
    for group in groups {
        push_number(alloc, text, " ", u128::from(*group))?;
    }
    Ok(())
}

/// The answer to a recovery with these fields.
pub fn answer_recovery(alloc: Global, fields: &str) -> Option<String> {
    let watched = watched_of(alloc, fields)?;
    let mut tree = tree_of(alloc, fields)?;
    let mut text = recovered(alloc, &mut tree).ok()?;
    push_tree(alloc, &mut text, &tree, &watched).ok()?;
    Some(text)
}

/// Recovers a tree, and tells how that ended.
fn recovered<T: Tree>(alloc: Global, tree: &mut T) -> Result<String, AllocError> {
    match recover(alloc, tree) {
        Ok(recovered) => completed(alloc, recovered),
        Err(fault) => refused(alloc, fault),
    }
}

fn completed(alloc: Global, recovered: Recovered) -> Result<String, AllocError> {
    let mut text = String::new(alloc);
    push_groups(alloc, &mut text, "completed", &recovered.completed)?;
    Ok(text)
}

fn refused(alloc: Global, fault: RecoverFault) -> Result<String, AllocError> {
    format!(in alloc; "refused {fault}")
}

/// The counts of a tree, the watched paths that were touched, and the objects.
fn push_tree(
    alloc: Global,
    text: &mut String,
    tree: &MemTree,
    watched: &[Path],
) -> Result<(), AllocError> {
    push_number(alloc, text, "\tcalls ", u128::from(tree.calls()))?;
    push_number(alloc, text, "\trefusals ", u128::from(tree.refused()))?;
    push_touched(alloc, text, tree, watched)?;
    for (path, object) in tree.objects() {
        push_object(alloc, text, path, object)?;
    }
    Ok(())
}

fn push_touched(
    alloc: Global,
    text: &mut String,
    tree: &MemTree,
    watched: &[Path],
) -> Result<(), AllocError> {
    for path in watched {
        if is_touched(alloc, tree, path)? {
            text.push_str("\ttouched ")?;
            push_escaped(text, path.text())?;
        }
    }
    Ok(())
}

/// Whether a path was changed since the last sync: a crash may then leave anything there.
fn is_touched(alloc: Global, tree: &MemTree, path: &Path) -> Result<bool, AllocError> {
    let nothing_there = vec![in alloc; (path.try_clone()?, None)]?;
    match tree.image(&nothing_there) {
        Ok(_) => Ok(true),
        Err(ImageFault::NotTouched { .. }) => Ok(false),
        Err(ImageFault::Memory) => Err(AllocError),
    }
}

fn push_object(
    alloc: Global,
    text: &mut String,
    path: &Path,
    object: &Object,
) -> Result<(), AllocError> {
    text.push_str("\ttree ")?;
    text.push_str(letter_of(object.kind))?;
    text.push(' ')?;
    text.push_str(hex::encode(alloc, object.bytes.as_slice())?.as_str())?;
    text.push(' ')?;
    push_escaped(text, path.text())
}

fn letter_of(kind: Kind) -> &'static str {
    match kind {
        Kind::Plain => "-",
        Kind::Exec => "x",
        Kind::Link => "l",
    }
}
