ghost use Rattle.std.specs.Prelude.{◌≡◌, ◌&&◌, ℕ, false, IsTrue};
ghost use Rattle.merge_core.specs.Phase.{may_end};
ghost use Rattle.merge_core.specs.Phases.{phase_of};
ghost use Rattle.merge_core.specs.Steps.{IsPhaseFor, enters, event_of, is_sync, wanted};
ghost use Rattle.merge_core.specs.Event.{is_abandon};

use crate::phase::Phase;

/// A step of one group, told by its name alone.
#[derive(Clone, Copy, Debug, PartialEq, Eq)]
pub enum Step {
    Begin,
    PutToken,
    SyncSealed,
    OpenGate,
    SyncGate,
    PlacePath,
    RemovePath,
    SyncPlaced,
    CloseGate,
    SyncClosed,
    Acknowledge,
    Abandon,
}

impl Step {
    pub(crate) fn is_abandon(self) -> bool
        ensures { (g : ℕ) → result ≡ is_abandon (event_of g self) }
    {
        matches!(self, Step::Abandon)
    }

    pub(crate) fn is_sync(self) -> bool
        ensures { result ≡ is_sync self }
    {
        matches!(
            self,
            Step::SyncSealed | Step::SyncGate | Step::SyncPlaced | Step::SyncClosed
        )
    }

    /// Whether the step brings its group into the order, where its call answered so.
    pub(crate) fn enters(self, ok: bool) -> bool
        ensures { result ≡ (ok && enters self) }
    {
        ok && matches!(self, Step::SyncPlaced)
    }

    /// The phase that the step asks for; an abandon takes any until the claim.
    pub(crate) fn wanted(self) -> Phase
        ensures { result ≡ wanted self }
    {
        match self {
            Step::Begin => Phase::Idle,
            Step::PutToken => Phase::Recorded,
            Step::SyncSealed => Phase::Marked,
            Step::OpenGate => Phase::Claimed,
            Step::SyncGate => Phase::GatePut,
            Step::PlacePath | Step::RemovePath | Step::SyncPlaced => Phase::Open,
            Step::CloseGate => Phase::Placed,
            Step::SyncClosed => Phase::GateTaken,
            Step::Acknowledge => Phase::Done,
            Step::Abandon => Phase::Building,
        }
    }

    pub(crate) fn takes(self, has: Phase) -> bool
        ensures takes { IsTrue result → IsPhaseFor self (phase_of has) }
        ensures not { result ≡ false → ¬ IsPhaseFor self (phase_of has) }
    {
        match self {
            Step::Abandon => may_end(has),
            _ => is_same(has, self.wanted()),
        }
    }
}

fn may_end(phase: Phase) -> bool
    ensures { result ≡ may_end (phase_of phase) }
{
    matches!(
        phase,
        Phase::Building | Phase::Recorded | Phase::Marked | Phase::Sealed
    )
}

#[tactic(auto, using(crate::proofs::Coded::phases_same))]
pub(crate) fn is_same(one: Phase, other: Phase) -> bool
    ensures same { IsTrue result → phase_of one ≡ phase_of other }
    ensures not { result ≡ false → ¬ (phase_of one ≡ phase_of other) }
{
    one == other
}
