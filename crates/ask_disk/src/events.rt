//! The next event of a group, whatever it is.

ghost use Rattle.std.specs.Prelude.{◌≡◌, ◌<◌, ⊤, true, MatchOption};
ghost use Rattle.merge_core.specs.Payloads.{IsAt};
ghost use Rattle.merge_core.specs.declared.phase.Phase.TheVariants as phases;
ghost use Rattle.ask_disk.specs.Three.{AreThree};

use crate::cases::{brought, removals, staged};
use crate::outcomes::push_stop;
use file_tree::Entry;
use merge_core::Phase;
use merge_site::{ClaimStop, Site};
use std::alloc::Global;
use tree_mem::{MemSink, MemTree};

/// How far a group has come, unless an event failed.
fn phase_in(site: &Site<MemTree, MemSink>, group: u32) -> Option<Phase>
    requires three { AreThree site.now.keeping }
    requires small { group < 3 }
    ensures { MatchOption result ⊤ (IsAt site.now.keeping group) }
{
    if site.is_stopped() {
        return None;
    }
    Some(site.phase(group))
}

fn begin(site: &mut Site<MemTree, MemSink>, group: u32) -> bool
    requires three { AreThree site.old.keeping }
    requires at { IsAt site.old.keeping group phases.Idle }
    ensures three { result ≡ true → AreThree site.new.keeping }
{
    site.begin(group);
    true
}

fn stage(site: &mut Site<MemTree, MemSink>, group: u32, entry: Entry) -> bool
    requires three { AreThree site.old.keeping }
    requires at { IsAt site.old.keeping group phases.Building }
    ensures three { result ≡ true → AreThree site.new.keeping }
{
    site.stage(group, brought(group), false, entry).is_ok()
}

fn put_record(alloc: Global, site: &mut Site<MemTree, MemSink>, fields: &str, group: u32) -> bool
    requires three { AreThree site.old.keeping }
    requires at { IsAt site.old.keeping group phases.Building }
    ensures three { result ≡ true → AreThree site.new.keeping }
{
    let Ok(removals) = removals(alloc, fields, group) else {
        return false;
    };
    site.put_record(group, removals).is_ok()
}

/// Stages the next object of a group, or else puts its record.
fn build(alloc: Global, site: &mut Site<MemTree, MemSink>, fields: &str, group: u32) -> bool
    requires three { AreThree site.old.keeping }
    requires at { IsAt site.old.keeping group phases.Building }
    ensures three { result ≡ true → AreThree site.new.keeping }
{
    match staged(alloc, fields, group, site.left(group).0) {
        Some(entry) => stage(site, group, entry),
        None => put_record(alloc, site, fields, group),
    }
}

fn put_token(site: &mut Site<MemTree, MemSink>, group: u32) -> bool
    requires three { AreThree site.old.keeping }
    requires at { IsAt site.old.keeping group phases.Recorded }
    ensures three { result ≡ true → AreThree site.new.keeping }
{
    site.put_token(group).is_ok()
}

fn sync_sealed(site: &mut Site<MemTree, MemSink>, group: u32) -> bool
    requires three { AreThree site.old.keeping }
    requires at { IsAt site.old.keeping group phases.Marked }
    ensures three { result ≡ true → AreThree site.new.keeping }
{
    site.sync_sealed(group).is_ok()
}

/// Keeps why a claim was stopped.
fn keep(refusal: &mut String, answer: Result<(), ClaimStop>) {
    if let Err(stop) = answer {
        if push_stop(refusal, stop).is_err() {
            refusal.clear();
        }
    }
}

fn claim(site: &mut Site<MemTree, MemSink>, group: u32, refusal: &mut String) -> bool
    requires three { AreThree site.old.keeping }
    requires at { IsAt site.old.keeping group phases.Sealed }
    ensures three { result ≡ true → AreThree site.new.keeping }
{
    let answer = site.claim(group);
    let came = answer.is_ok();
    keep(refusal, answer);
    came
}

fn open_gate(site: &mut Site<MemTree, MemSink>, group: u32) -> bool
    requires three { AreThree site.old.keeping }
    requires at { IsAt site.old.keeping group phases.Claimed }
    ensures three { result ≡ true → AreThree site.new.keeping }
{
    site.open_gate(group).is_ok()
}

fn sync_gate(site: &mut Site<MemTree, MemSink>, group: u32) -> bool
    requires three { AreThree site.old.keeping }
    requires at { IsAt site.old.keeping group phases.GatePut }
    ensures three { result ≡ true → AreThree site.new.keeping }
{
    site.sync_gate(group).is_ok()
}

/// The next change of an open group's paths, or the sync behind the last one.
fn change(site: &mut Site<MemTree, MemSink>, group: u32) -> bool
    requires three { AreThree site.old.keeping }
    requires at { IsAt site.old.keeping group phases.Open }
    ensures three { result ≡ true → AreThree site.new.keeping }
{
    let (placements, removals) = site.left(group);
    if placements > 0 {
        site.place(group).is_ok()
    } else if removals > 0 {
        site.remove_path(group).is_ok()
    } else {
        site.sync_placed(group).is_ok()
    }
}

fn close_gate(site: &mut Site<MemTree, MemSink>, group: u32) -> bool
    requires three { AreThree site.old.keeping }
    requires at { IsAt site.old.keeping group phases.Placed }
    ensures three { result ≡ true → AreThree site.new.keeping }
{
    site.close_gate(group).is_ok()
}

fn sync_closed(site: &mut Site<MemTree, MemSink>, group: u32) -> bool
    requires three { AreThree site.old.keeping }
    requires at { IsAt site.old.keeping group phases.GateTaken }
    ensures three { result ≡ true → AreThree site.new.keeping }
{
    site.sync_closed(group).is_ok()
}

fn acknowledge(site: &mut Site<MemTree, MemSink>, group: u32) -> bool
    requires three { AreThree site.old.keeping }
    requires at { IsAt site.old.keeping group phases.Done }
    ensures three { result ≡ true → AreThree site.new.keeping }
{
    site.acknowledge(group).is_ok()
}

/// Makes the next event of a group, and tells whether it came and its device did what was asked. A
/// group that is told has none.
pub fn advance(
    alloc: Global,
    site: &mut Site<MemTree, MemSink>,
    fields: &str,
    group: u32,
    refusal: &mut String,
) -> bool
    requires three { AreThree site.old.keeping }
    requires small { group < 3 }
    ensures three { result ≡ true → AreThree site.new.keeping }
{
    match phase_in(site, group) {
        Some(Phase::Idle) => begin(site, group),
        Some(Phase::Building) => build(alloc, site, fields, group),
        Some(Phase::Recorded) => put_token(site, group),
        Some(Phase::Marked) => sync_sealed(site, group),
        Some(Phase::Sealed) => claim(site, group, refusal),
        Some(Phase::Claimed) => open_gate(site, group),
        Some(Phase::GatePut) => sync_gate(site, group),
        Some(Phase::Open) => change(site, group),
        Some(Phase::Placed) => close_gate(site, group),
        Some(Phase::GateTaken) => sync_closed(site, group),
        Some(Phase::Done) => acknowledge(site, group),
        _ => false,
    }
}
