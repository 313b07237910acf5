use crate::phase::Phase;
use std::alloc::AllocError;
use thiserror::Error;

/// Why a step may not come now, in the order in which it is tried.
#[derive(Debug, Drop, Error)]
pub enum Refusal {
    #[error("there is no such group, or the machine is stopped")]
    OutOfRange,
    #[error("the group is in another phase")]
    WrongPhase { has: Phase, wanted: Phase },
    #[error("{left} paths are left")]
    NotDue { left: usize },
    #[error("too many paths, or too many bytes of them")]
    Limit,
    #[error("out of memory")]
    Memory,
}

impl From<AllocError> for Refusal {
    ghost use Rattle.std.specs.Prelude.{◌≡◌};
    ghost use Rattle.merge_core.specs.declared.refusal.Refusal.TheVariants as refusals;

    ghost from_gives = { λ _ e. e ≡ refusals.Memory };

    fn from(_: AllocError) -> Refusal {
        Refusal::Memory
    }
}
