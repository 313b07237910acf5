ghost use Rattle.std.specs.Prelude.{◌≡◌, ◌<◌, ◌≤◌, ◌^◌, false, length, Some, IfErr, IfOk, IsTrue};
ghost use Rattle.std.specs.Prelude.{IsOk, OnErr, OnOk};
ghost use Rattle.merge_journal.specs.Judging.{IsStaged};
ghost use Rattle.merge_record.specs.Spelling.{IsSpellable, PassesLimit};
ghost use Rattle.merge_core.specs.Core.{standing_in};
ghost use Rattle.merge_core.specs.Event.{Admits, Claim, PutRecord, PutStage, answered, in_phase};
ghost use Rattle.merge_core.specs.Event.{put_content};
ghost use Rattle.merge_core.specs.CoreValue.{machine_of};
ghost use Rattle.merge_core.specs.Payloads.{IsApart, IsAt, IsFull, IsRefusedAt, IsRunning};
ghost use Rattle.merge_core.specs.Payloads.{with_answer, with_claim, with_record, with_stage};
ghost use Rattle.merge_core.specs.Phase as pure;

use crate::machine::Core;
use crate::phase::Phase;
use crate::refusal::Refusal;
use crate::step::is_same;
use file_tree::{Object, Path};
use merge_record::Placement;
use std::alloc::{AllocError, Global};

impl Core {
    fn judge_at(&self, group: u32, asked: Phase) -> Result<(), Refusal>
        ensures at { OnOk result (IsAt self.now group asked) }
        ensures refused { IfErr result (IsRefusedAt self.now group asked ⊥) }
        ensures admits { IsAt self.now group asked → IsOk result }
    {
        if group as usize >= self.standings.len() || self.stopped {
            return Err(Refusal::OutOfRange);
        }
        let standing = &self.standings[group as usize];
        let has = standing.phase();
        if !is_same(has, asked) {
            return Err(Refusal::WrongPhase { has, wanted: asked });
        }
        Ok(())
    }

    fn judge_stage(&self, group: u32) -> Result<(), Refusal>
        ensures at { OnOk result (IsAt self.now group Phase.Building) }
        ensures small { OnOk result (length
            (standing_in self.now.standings group).objects < 2 ^ 32) }
        ensures refused { IfErr result (IsRefusedAt self.now group Phase.Building
            (IsFull (standing_in self.now.standings group))) }
    {
        self.judge_at(group, Phase::Building)?;
        if self.standings[group as usize].is_full() {
            return Err(Refusal::Limit);
        }
        Ok(())
    }

    fn stage_at(
        &mut self,
        group: u32,
        placement: Placement,
        object: &Object,
        ok: bool,
    ) -> Result<(), AllocError>
        requires { IsAt self.old group Phase.Building }
        ensures ok { OnOk result (self.new ≡
            with_answer self.old group (with_stage ok self.old.syncs placement object.now
            (standing_in self.old.standings group)) ok) }
        ensures kept { OnErr result (self.new ≡ self.old) }
    {
        let syncs = self.syncs;
        let standing = &mut self.standings[group as usize];
        standing.stage(placement, object, ok, syncs)?;
        self.stopped = !ok || self.stopped;
        Ok(())
    }

    /// Takes a stage of a group, whose call was answered, or refuses it. Of the object no byte is
    /// kept.
    pub fn put_stage(
        &mut self,
        group: u32,
        placement: Placement,
        object: &Object,
        ok: bool,
    ) -> Result<(), Refusal>
        requires staged { IsStaged (Some object.now) placement }
        ensures comes { OnOk result (IsRunning self.old group) }
        ensures admitted { OnOk result (Admits (machine_of self.old)
            (PutStage group placement object.now)) }
        ensures done { OnOk result (machine_of self.new ≡
            answered (machine_of self.old) (PutStage group placement object.now) ok) }
        ensures groups { length self.new.standings ≡ length self.old.standings }
        ensures refused { IfErr result (IsRefusedAt self.old group Phase.Building
            (IsFull (standing_in self.old.standings group))) }
        ensures kept { OnErr result (self.new ≡ self.old) }
    {
        self.judge_stage(group)?;
        self.stage_at(group, placement, object, ok)?;
        Ok(())
    }

    fn record_at(
        &mut self,
        alloc: Global,
        group: u32,
        removals: Vec<Path>,
        ok: bool,
    ) -> Result<(), Refusal>
        requires { IsAt self.old group Phase.Building }
        ensures ok { OnOk result (self.new ≡
            with_answer self.old group (with_record ok self.old.syncs group removals.items
            (standing_in self.old.standings group)) ok) }
        ensures fits { OnOk result (IsSpellable (put_content (machine_of self.old) group removals.items)) }
        ensures refused { IfErr result (IsRefusedAt self.old group Phase.Building
            (PassesLimit (put_content (machine_of self.old) group removals.items))) }
        ensures kept { OnErr result (self.new ≡ self.old) }
    {
        let syncs = self.syncs;
        let standing = &mut self.standings[group as usize];
        standing.put_record(alloc, group, removals, ok, syncs)?;
        self.stopped = !ok || self.stopped;
        Ok(())
    }

    /// Takes the record of a group, whose call was answered, or refuses it.
    pub fn put_record(
        &mut self,
        alloc: Global,
        group: u32,
        removals: Vec<Path>,
        ok: bool,
    ) -> Result<(), Refusal>
        ensures comes { OnOk result (IsRunning self.old group) }
        ensures admitted { OnOk result (Admits (machine_of self.old)
            (PutRecord group removals.items)) }
        ensures done { OnOk result (machine_of self.new ≡
            answered (machine_of self.old) (PutRecord group removals.items) ok) }
        ensures groups { length self.new.standings ≡ length self.old.standings }
        ensures refused { IfErr result (IsRefusedAt self.old group Phase.Building
            (PassesLimit (put_content (machine_of self.old) group removals.items))) }
        ensures kept { OnErr result (self.new ≡ self.old) }
    {
        self.judge_at(group, Phase::Building)?;
        self.record_at(alloc, group, removals, ok)
    }

    fn claim_at(&mut self, group: u32, ok: bool)
        requires { IsAt self.old group Phase.Sealed }
        ensures { self.new ≡ with_answer self.old group
            (with_claim ok (standing_in self.old.standings group)) ok }
    {
        let standing = &mut self.standings[group as usize];
        standing.claim(ok);
        self.stopped = !ok || self.stopped;
    }

    /// Takes the claim of a group, whose looks were answered, or refuses it. That its paths are
    /// free is for whoever keeps the ownership book.
    pub fn claim(&mut self, group: u32, ok: bool) -> Result<(), Refusal>
        requires apart { IsApart (machine_of self.old).roll group }
        ensures comes { OnOk result (IsRunning self.old group) }
        ensures admitted { OnOk result (Admits (machine_of self.old) (Claim group)) }
        ensures done { OnOk result (machine_of self.new ≡
            answered (machine_of self.old) (Claim group) ok) }
        ensures groups { length self.new.standings ≡ length self.old.standings }
        ensures refused { IfErr result (IsRefusedAt self.old group Phase.Sealed ⊥) }
        ensures admits { IsAt self.old group Phase.Sealed → IsOk result }
        ensures kept { OnErr result (self.new ≡ self.old) }
    {
        self.judge_at(group, Phase::Sealed)?;
        self.claim_at(group, ok);
        Ok(())
    }
}
