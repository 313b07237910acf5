ghost use Rattle.std.specs.Prelude.{◌≡◌};
ghost use Rattle.merge_core.specs.Roll.{resting};

use crate::limits::MOST_STAGES;
use crate::phase::Phase;
use crate::refusal::Refusal;
use crate::step::Step;
use file_tree::{Kind, Object, Path};
use merge_record::{DecodeFault, Placement, Record, encode};
use std::alloc::{AllocError, Global};
use std::marker::Model;
use std::mem;
use std::snapshot::Snapshot;

/// What the machine keeps of one group. Of the objects it keeps no byte.
#[derive(Drop)]
pub(crate) struct Standing {
    pub(crate) phase: Phase,
    pub(crate) removals: Vec<Path>,
    pub(crate) placements: Vec<Placement>,
    pub(crate) objects: Vec<Snapshot<Object>>,
    pub(crate) body: Snapshot<Object>,
    pub(crate) placed: usize,
    pub(crate) removed: usize,
    pub(crate) stamp: u64,
}

impl Model for Standing {
    ghost use Rattle.std.specs.Prelude.{map};
    ghost use Rattle.merge_core.specs.Roll as roll;
    ghost use Rattle.merge_core.specs.Phases.{phase_of};

    ghost Value = { roll.Standing };

    ghost view = { λ s. record
        { phase = phase_of s.phase; removals = s.removals.items; placements = s.placements.items; objects = map (λ o. o.value) s.objects.items; body = s.body.value; placed = s.placed; removed = s.removed; stamp = s.stamp } };
}

impl Standing {
    /// Nothing was done for the group.
    pub(crate) fn new(alloc: Global) -> Standing
        ensures { result ≡ resting }
    {
        let empty = Object {
            kind: Kind::Plain,
            bytes: Vec::new(alloc),
        };
        Standing {
            phase: Phase::Idle,
            removals: Vec::new(alloc),
            placements: Vec::new(alloc),
            objects: Vec::new(alloc),
            body: Snapshot::of(&empty),
            placed: 0,
            removed: 0,
            stamp: 0,
        }
    }
}

impl Standing {
    ghost use Rattle.std.specs.Prelude.{◌≡◌, ◌⊎◌, ◌<◌, ◌^◌, false, length, IfErr, IfOk, IsErrOf};
    ghost use Rattle.std.specs.Prelude.{IsTrue, OnErr, OnOk};
    ghost use Rattle.merge_record.specs.Spelling.{IsSpellable, PassesLimit, spelling};
    ghost use Rattle.merge_core.specs.Payloads.{IsFull, with_claim, with_record, with_stage};
    ghost use Rattle.merge_core.specs.Roll.{resting};
    ghost use Rattle.merge_core.specs.Phase.{Recorded};
    ghost use Rattle.merge_core.specs.Phases.{phase_of};
    ghost use Rattle.merge_core.specs.Steps.{IsDueFor, finished, left_for, moved, started};

    pub(crate) fn phase(&self) -> Phase
        ensures { phase_of result ≡ self.now.phase }
    {
        self.phase
    }

    pub(crate) fn is_due(&self, step: Step) -> bool
        ensures due { IsTrue result → IsDueFor step self.now }
        ensures not { result ≡ false → ¬ IsDueFor step self.now }
    {
        match step {
            Step::PlacePath => self.placed < self.placements.len(),
            Step::RemovePath => self.removed < self.removals.len(),
            Step::SyncPlaced => {
                self.placements.len() == self.placed && self.removals.len() == self.removed
            }
            _ => true,
        }
    }

    pub(crate) fn left(&self, step: Step) -> usize
        ensures { result ≡ left_for step self.now }
    {
        if step != Step::SyncPlaced {
            return 0;
        }
        let placements = self.placements.len().saturating_sub(self.placed);
        placements + self.removals.len().saturating_sub(self.removed)
    }

    /// The call of the step has begun.
    pub(crate) fn start(&mut self, step: Step, syncs: u64)
        ensures { self.new ≡ started step syncs self.old }
    {
        match step {
            Step::PutToken | Step::PlacePath | Step::RemovePath => self.stamp = syncs,
            Step::OpenGate => {
                self.phase = Phase::GatePut;
                self.stamp = syncs;
            }
            Step::CloseGate => {
                self.phase = Phase::GateTaken;
                self.stamp = syncs;
            }
            _ => {}
        }
    }

    /// The call of the step answered Ok.
    pub(crate) fn finish(&mut self, alloc: Global, step: Step, syncs: u64)
        requires { IsDueFor step self.old }
        ensures { self.new ≡ finished step syncs self.old }
    {
        self.start(step, syncs);
        match step {
            Step::Begin => {
                let stamp = self.stamp;
                *self = Standing::new(alloc);
                self.stamp = stamp;
                self.phase = Phase::Building;
            }
            Step::PutToken => self.phase = Phase::Marked,
            Step::SyncSealed => self.phase = Phase::Sealed,
            Step::SyncGate => {
                self.phase = Phase::Open;
                self.placed = 0;
                self.removed = 0;
            }
            Step::PlacePath => self.placed += 1,
            Step::RemovePath => self.removed += 1,
            Step::SyncPlaced => self.phase = Phase::Placed,
            Step::SyncClosed => self.phase = Phase::Done,
            Step::Acknowledge => self.phase = Phase::Told,
            Step::Abandon => self.phase = Phase::Abandoned,
            Step::OpenGate | Step::CloseGate => {}
        }
    }

    /// The call of the step was answered.
    pub(crate) fn go(&mut self, alloc: Global, step: Step, ok: bool, syncs: u64)
        requires { IsDueFor step self.old }
        ensures { self.new ≡ moved step ok syncs self.old }
    {
        if ok {
            self.finish(alloc, step, syncs);
        } else {
            self.start(step, syncs);
        }
    }

    /// The object was handed to the group's next stage.
    pub(crate) fn stage(
        &mut self,
        placement: Placement,
        object: &Object,
        ok: bool,
        syncs: u64,
    ) -> Result<(), AllocError>
        ensures ok { OnOk result (self.new ≡ with_stage ok syncs placement object.now self.old) }
        ensures kept { OnErr result (self.new ≡ self.old) }
    {
        if !ok {
            self.stamp = syncs;
            return Ok(());
        }
        self.objects.reserve(1)?;
        self.placements.push(placement)?;
        if self.objects.push(Snapshot::of(object)).is_err() {
            unreachable!();
        }
        self.stamp = syncs;
        Ok(())
    }

    /// The bytes of the record that these removals and the stages make.
    pub(crate) fn spell(
        &mut self,
        alloc: Global,
        group: u32,
        removals: Vec<Path>,
    ) -> Result<(Vec<Path>, Vec<u8>), DecodeFault>
        ensures kept { self.new ≡ self.old }
        ensures ok { IfOk result (λ r. (r.0.items ≡ removals.items) ×
            IsSpellable (record
            { group = group; removals = removals.items; placements = self.old.placements }) ×
            (r.1.items ≡ spelling
            (record { group = group; removals = removals.items; placements = self.old.placements }))) }
        ensures limit { IsErrOf result DecodeFault.Limit →
            PassesLimit (record
            { group = group; removals = removals.items; placements = self.old.placements }) }
        ensures only { IfErr result (λ e. (e ≡ DecodeFault.Limit) ⊎ (e ≡ DecodeFault.Memory)) }
    {
        let placements = mem::replace(&mut self.placements, Vec::new(alloc));
        let record = Record {
            group,
            removals,
            placements,
        };
        let encoded = encode(alloc, &record);
        let Record {
            group: _,
            removals,
            placements,
        } = record;
        self.placements = placements;
        match encoded {
            Ok(bytes) => Ok((removals, bytes)),
            Err(fault) => Err(fault),
        }
    }

    /// The record that these removals and the stages make was put.
    pub(crate) fn put_record(
        &mut self,
        alloc: Global,
        group: u32,
        removals: Vec<Path>,
        ok: bool,
        syncs: u64,
    ) -> Result<(), Refusal>
        ensures ok { OnOk result (self.new ≡ with_record ok syncs group removals.items self.old) }
        ensures fits { OnOk result (IsSpellable
            (record { group = group; removals = removals.items; placements = self.old.placements })) }
        ensures limit { IsErrOf result Refusal.Limit →
            PassesLimit (record
            { group = group; removals = removals.items; placements = self.old.placements }) }
        ensures only { IfErr result (λ e. (e ≡ Refusal.Limit) ⊎ (e ≡ Refusal.Memory)) }
        ensures kept { OnErr result (self.new ≡ self.old) }
    {
        let (removals, bytes) = match self.spell(alloc, group, removals) {
            Ok(spelled) => spelled,
            Err(DecodeFault::Limit) => return Err(Refusal::Limit),
            Err(_) => return Err(Refusal::Memory),
        };
        self.stamp = syncs;
        if ok {
            let kind = Kind::Plain;
            self.phase = Phase::Recorded;
            self.removals = removals;
            self.body = Snapshot::of(&Object { kind, bytes });
        }
        Ok(())
    }

    /// The record was handed to the device.
    pub(crate) fn take_record(&mut self, removals: Vec<Path>, body: &Object, ok: bool, syncs: u64)
        ensures taken { IsTrue ok → self.new ≡ record self.old {
          phase = Recorded;
          removals = removals.items;
          body = body.now;
          stamp = syncs;
        } }
        ensures failed { ok ≡ false → self.new ≡ record self.old { stamp = syncs } }
    {
        self.stamp = syncs;
        if ok {
            self.phase = Phase::Recorded;
            self.removals = removals;
            self.body = Snapshot::of(body);
        }
    }

    pub(crate) fn is_full(&self) -> bool
        ensures full { IsTrue result → IsFull self.now }
        ensures not { result ≡ false → length self.now.objects < 2 ^ 32 }
    {
        self.objects.len() >= MOST_STAGES
    }

    pub(crate) fn claim(&mut self, ok: bool)
        ensures { self.new ≡ with_claim ok self.old }
    {
        if ok {
            self.phase = Phase::Claimed;
        }
    }
}
