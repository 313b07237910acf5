ghost use Rattle.std.specs.Prelude.{◌≡◌};
ghost use Rattle.vdb_values.specs.declared.fault.FlagFault.TheVariants.{Memory};

use std::alloc::{AllocError, AllocFailed};
use thiserror::Error;

/// Why a text is none of flags.
#[derive(Debug, Drop, Error)]
pub enum FlagFault {
    /// The first word that is none, by the place of its first byte.
    #[error("the word at {at} is none of a flag")]
    Word { at: usize },
    #[error("out of memory")]
    Memory,
}

impl From<AllocError> for FlagFault {
    ghost from_gives = { λ _ e. e ≡ Memory };

    fn from(_e: AllocError) -> FlagFault {
        FlagFault::Memory
    }
}

impl<T: Drop> From<AllocFailed<T>> for FlagFault {
    ghost from_gives = { λ _ e. e ≡ Memory };

    fn from(_e: AllocFailed<T>) -> FlagFault {
        FlagFault::Memory
    }
}
