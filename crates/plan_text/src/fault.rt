ghost use Rattle.std.specs.Prelude.{◌≡◌};
ghost use Rattle.plan_text.specs.declared.fault.PlanTextFault.TheVariants.{Memory};

use std::alloc::{AllocError, AllocFailed};
use thiserror::Error;

/// Why a text is no plan. Lines count from 1, and stay at `u32::MAX` behind it. The first faulty
/// line is told, and of its faults the first in this order.
#[derive(Debug, Drop, Error)]
pub enum PlanTextFault {
    /// A word in a number's place is none, or a group's number isn't the next one.
    #[error("line {line} has no number where one is wanted")]
    Number { line: u32 },
    /// A group waits for numbers that don't rise or aren't below its own.
    #[error("line {line} names groups that are not before this one")]
    NotBefore { line: u32 },
    /// It would be one group too many.
    #[error("too many groups")]
    Limit,
    /// The line isn't in form, or may not stand there, or is missing.
    #[error("line {line} is not in form")]
    Line { line: u32 },
    #[error("out of memory")]
    Memory,
}

impl From<AllocError> for PlanTextFault {
    ghost from_gives = { λ _ e. e ≡ Memory };

    fn from(_e: AllocError) -> PlanTextFault {
        PlanTextFault::Memory
    }
}

impl<T: Drop> From<AllocFailed<T>> for PlanTextFault {
    ghost from_gives = { λ _ e. e ≡ Memory };

    fn from(_e: AllocFailed<T>) -> PlanTextFault {
        PlanTextFault::Memory
    }
}
