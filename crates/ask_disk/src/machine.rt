//! The steps of the machine of two groups. Each stages an empty plain file by `Stage`, and removes
//! nothing by its `Record`; `needs` asks whether a group needs a sync. A step stands before its
//! group, as `Begin 0`; with `-` in front, its call failed.

ghost use Rattle.std.specs.Prelude.{◌≡◌, Some, IfOk};
ghost use Rattle.merge_journal.specs.Judging.{IsStaged};

use ask_lines::{cut, not_in_form, path_of, push_between, small_number_of};
use file_tree::{Kind, Object};
use merge_core::{Core, Refusal, Step};
use merge_record::{Placement, digest_of};
use std::alloc::{AllocError, Global};
use std::io;

/// What each of these steps is told.
pub fn answer(alloc: Global, fields: &str) -> io::Result<String> {
    let mut core = Core::new(alloc, 2)?;
    let mut text = String::new(alloc);
    for field in fields.split('\t') {
        push_between(&mut text, "\t")?;
        let (step, group) = cut(field, ' ');
        push_step(alloc, &mut text, &mut core, step, small_number_of(group)?)?;
    }
    Ok(text)
}

/// Takes a step; with `-` in front, its call failed.
fn push_step(
    alloc: Global,
    text: &mut String,
    core: &mut Core,
    step: &str,
    group: u32,
) -> io::Result<()> {
    let (name, ok) = match step.strip_prefix("-") {
        Some(name) => (name, false),
        None => (step, true),
    };
    match name {
        "needs" => text.push_str(word_of(core.needs_sync(group)))?,
        "phase" => push_phase(text, core, group)?,
        "Stage" => push_answer(text, stage(alloc, core, group, ok)?)?,
        "Record" => push_answer(text, core.put_record(alloc, group, Vec::new(alloc), ok))?,
        _ => push_answer(text, core.step(alloc, group, step_of(name)?, ok))?,
    }
    Ok(())
}

fn word_of(needs: bool) -> &'static str {
    if needs { "yes" } else { "no" }
}

fn push_phase(text: &mut String, core: &Core, group: u32) -> Result<(), AllocError> {
    match core.phase(group) {
        Some(phase) => write!(text, "{phase:?}"),
        None => text.push_str("none"),
    }
}

fn push_answer(text: &mut String, answer: Result<(), Refusal>) -> Result<(), AllocError> {
    match answer {
        Ok(()) => text.push_str("ok"),
        Err(Refusal::WrongPhase { has, wanted }) => write!(text, "{has:?}, not {wanted:?}"),
        Err(refusal) => write!(text, "{refusal}"),
    }
}

fn step_of(name: &str) -> io::Result<Step> {
    Ok(match name {
        "Begin" => Step::Begin,
        "PutToken" => Step::PutToken,
        "SyncSealed" => Step::SyncSealed,
        "OpenGate" => Step::OpenGate,
        "SyncGate" => Step::SyncGate,
        "PlacePath" => Step::PlacePath,
        "RemovePath" => Step::RemovePath,
        "SyncPlaced" => Step::SyncPlaced,
        "CloseGate" => Step::CloseGate,
        "SyncClosed" => Step::SyncClosed,
        "Acknowledge" => Step::Acknowledge,
        "Abandon" => Step::Abandon,
        _ => return Err(not_in_form()),
    })
}

/// How a record tells an object at `a`.
fn placement(alloc: Global, object: &Object) -> io::Result<Placement>
    ensures { IfOk result (IsStaged (Some object.now)) }
{
    Ok(Placement {
        path: path_of(alloc, "a")?,
        kind: object.kind,
        length: object.bytes.len() as u64,
        md5: digest_of(&object.bytes),
    })
}

/// Stages an empty plain file.
fn stage(alloc: Global, core: &mut Core, group: u32, ok: bool) -> io::Result<Result<(), Refusal>> {
    let object = Object {
        kind: Kind::Plain,
        bytes: Vec::new(alloc),
    };
    let placement = placement(alloc, &object)?;
    Ok(core.put_stage(group, placement, &object, ok))
}
