ghost use Rattle.std.specs.Prelude.{◌≡◌};
ghost use Rattle.use_flags.specs.declared.fault.UseFault.TheVariants.{Memory};

use std::alloc::{AllocError, AllocFailed};
use thiserror::Error;

/// Why a text of flags is refused.
#[derive(Debug, Drop, Error)]
pub enum UseFault {
    /// `at` is the first byte of the first word that is no item or no change.
    #[error("the word at {at} is none of a flag")]
    Item { at: usize },
    #[error("out of memory")]
    Memory,
}

impl From<AllocError> for UseFault {
    ghost from_gives = { λ _ e. e ≡ Memory };

    fn from(_e: AllocError) -> UseFault {
        UseFault::Memory
    }
}

impl<T: Drop> From<AllocFailed<T>> for UseFault {
    ghost from_gives = { λ _ e. e ≡ Memory };

    fn from(_e: AllocFailed<T>) -> UseFault {
        UseFault::Memory
    }
}
