ghost use Rattle.std.specs.Prelude.{◌≡◌, ◌<◌, ◌≤◌, false, length, replicate, IfErr, IfOk, IsTrue};
ghost use Rattle.std.specs.Prelude.{◌+◌, ◌++◌, ◌∷◌, [], IsOk, MatchOption, OnErr, OnOk};
ghost use Rattle.std.specs.Prelude.{vec_capacity, vec_len, if◌then◌else◌};
ghost use Rattle.merge_core.specs.Event.{Admits, answered, needs_sync};
ghost use Rattle.merge_core.specs.CoreValue.{at_rest, machine_of};
ghost use Rattle.merge_core.specs.Roll.{idle, phase_at, resting};
ghost use Rattle.merge_core.specs.Phases.{phase_of};
ghost use Rattle.merge_core.specs.Steps.{CanCome, IsRefused, IsTaken, after, event_of};
ghost use Rattle.merge_core.specs.Steps.{syncs_after};

use crate::phase::Phase;
use crate::refusal::Refusal;
use crate::standing::Standing;
use crate::step::Step;
use std::alloc::{AllocError, Global};
use std::marker::Model;
use std::snapshot::Snapshot;

/// A group that stands in the tree, as it stood when it came there.
#[derive(Drop)]
pub(crate) struct Settled {
    group: u32,
    standing: Snapshot<Standing>,
}

/// The machine of all groups. In clauses, the list of their standings and the order in which
/// groups came into the tree.
#[derive(Drop)]
pub struct Core {
    pub(crate) standings: Vec<Standing>,
    pub(crate) order: Vec<Settled>,
    pub(crate) syncs: u64,
    pub(crate) stopped: bool,
}

impl Model for Core {
    ghost use Rattle.std.specs.Prelude.{map, vec_capacity, vec_len};
    ghost use Rattle.merge_core.specs.CoreValue.{IsCounted, CoreValue};
    ghost use Rattle.merge_core.specs.Roll.{group_of};

    ghost Value = { CoreValue };

    ghost invariant = { λ c. IsCounted c.standings.items c.syncs (vec_len c.order)
        (vec_capacity c.order) };

    ghost view = { λ c. record {
      standings = c.standings.items;
      order = map
          (λ s. group_of s.group s.standing.value) c.order.items;
      syncs = c.syncs;
      stopped = c.stopped;
    } };
}

fn resting_standings(alloc: Global, groups: u32) -> Result<Vec<Standing>, AllocError>
    ensures { IfOk result (λ v. v.items ≡ replicate groups resting) }
{
    let mut standings = Vec::with_capacity(alloc, groups as usize)?;
    for _ in 0..groups {
        standings.push(Standing::new(alloc))?;
    }
    Ok(standings)
}

/// Puts a group into the order, which has room for it.
fn enter(order: &mut Vec<Settled>, settled: Settled, enters: bool)
    requires room { IsTrue enters → vec_len order.old < vec_capacity order.old }
    ensures enters { IsTrue enters → order.new.items ≡ order.old.items ++ settled ∷ [] }
    ensures stays { enters ≡ false → order.new.items ≡ order.old.items }
    ensures len { vec_len order.new ≡ vec_len order.old + (if enters then 1 else 0) }
    ensures capacity { vec_capacity order.old ≤ vec_capacity order.new }
{
    if enters && order.push(settled).is_err() {
        unreachable!();
    }
}

impl Core {
    /// The machine of this number of groups, none of which has begun.
    pub fn new(alloc: Global, groups: u32) -> Result<Core, AllocError>
        ensures rest { IfOk result (λ c. c ≡ at_rest groups) }
        ensures machine { IfOk result (λ c. machine_of c ≡ idle) }
    {
        Ok(Core {
            standings: resting_standings(alloc, groups)?,
            order: Vec::with_capacity(alloc, groups as usize)?,
            syncs: 0,
            stopped: false,
        })
    }

    /// How far the group has come, if there is such a group.
    pub fn phase(&self, group: u32) -> Option<Phase>
        ensures { MatchOption result (length self.now.standings ≤ group)
            (λ p. (group < length self.now.standings) ×
            (phase_at (machine_of self.now).roll group ≡ phase_of p)) }
    {
        let standing = self.standings.get(group as usize)?;
        Some(standing.phase())
    }

    /// Whether no sync came behind the last change that the group asked for.
    pub fn needs_sync(&self, group: u32) -> bool
        ensures there { group < length self.now.standings →
            result ≡ needs_sync (machine_of self.now) group }
        ensures none { length self.now.standings ≤ group → result ≡ false }
    {
        match self.standings.get(group as usize) {
            Some(standing) => standing.stamp == self.syncs,
            None => false,
        }
    }

    fn can_come(&self, group: u32, step: Step) -> bool
        ensures comes { IsTrue result → CanCome self.now group step }
        ensures not { result ≡ false → ¬ CanCome self.now group step }
    {
        (group as usize) < self.standings.len() && (!self.stopped || step.is_abandon())
    }

    fn judge(&self, group: u32, step: Step) -> Result<(), Refusal>
        ensures taken { OnOk result (IsTaken self.now group step) }
        ensures refused { IfErr result (IsRefused self.now group step) }
    {
        if !self.can_come(group, step) {
            return Err(Refusal::OutOfRange);
        }
        let standing = &self.standings[group as usize];
        let has = standing.phase();
        if !step.takes(has) {
            let wanted = step.wanted();
            return Err(Refusal::WrongPhase { has, wanted });
        }
        if !standing.is_due(step) {
            let left = standing.left(step);
            return Err(Refusal::NotDue { left });
        }
        Ok(())
    }

    fn next_syncs(&self, group: u32, step: Step, ok: bool) -> u64
        requires { group < length self.now.standings }
        ensures { result ≡ syncs_after self.now group step ok }
    {
        let stamp = self.standings[group as usize].stamp;
        if ok && step.is_sync() && stamp == self.syncs {
            self.syncs + 1
        } else {
            self.syncs
        }
    }

    fn go(&mut self, alloc: Global, group: u32, step: Step, ok: bool)
        requires { IsTaken self.old group step }
        ensures { self.new ≡ after self.old group step ok }
    {
        let syncs = self.syncs;
        let next = self.next_syncs(group, step, ok);
        let standing = &mut self.standings[group as usize];
        let settled = Settled {
            group,
            standing: Snapshot::of(standing),
        };
        standing.go(alloc, step, ok, syncs);
        self.syncs = next;
        self.stopped = !ok || self.stopped;
        enter(&mut self.order, settled, step.enters(ok));
    }

    /// Takes a step of a group, whose call was answered, or refuses it. It takes no memory.
    #[tactic(auto, using(crate::proofs::Taken::none_admitted))]
    pub fn step(&mut self, alloc: Global, group: u32, step: Step, ok: bool) -> Result<(), Refusal>
        ensures comes { OnOk result (CanCome self.old group step) }
        ensures admitted { OnOk result (Admits (machine_of self.old) (event_of group step)) }
        ensures done { OnOk result (machine_of self.new ≡
            answered (machine_of self.old) (event_of group step) ok) }
        ensures groups { length self.new.standings ≡ length self.old.standings }
        ensures refused { IfErr result (IsRefused self.old group step) }
        ensures only { CanCome self.old group step → Admits (machine_of self.old)
            (event_of group step) → IsOk result }
        ensures kept { OnErr result (self.new ≡ self.old) }
    {
        self.judge(group, step)?;
        self.go(alloc, group, step, ok);
        Ok(())
    }
}
