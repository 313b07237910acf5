ghost use Rattle.std.specs.Prelude.{◌≡◌};
ghost use Rattle.world_text.specs.declared.fault.WorldFault.TheVariants.{Memory};

use std::alloc::{AllocError, AllocFailed};
use thiserror::Error;

/// Why a text is no world file. Lines count from 1.
#[derive(Debug, Drop, Error)]
pub enum WorldFault {
    #[error("a world file is not UTF-8")]
    NotUtf8,
    /// The first line that counts and is no atom without a block.
    #[error("line {line} of a world file is no atom")]
    Atom { line: u32 },
    #[error("out of memory")]
    Memory,
}

impl From<AllocError> for WorldFault {
    ghost from_gives = { λ _ e. e ≡ Memory };

    fn from(_e: AllocError) -> WorldFault {
        WorldFault::Memory
    }
}

impl<T: Drop> From<AllocFailed<T>> for WorldFault {
    ghost from_gives = { λ _ e. e ≡ Memory };

    fn from(_e: AllocFailed<T>) -> WorldFault {
        WorldFault::Memory
    }
}
