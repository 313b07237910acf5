ghost use Rattle.std.specs.Prelude.{◌≡◌};
ghost use Rattle.vdb_contents.specs.declared.fault.ContentsFault.TheVariants.{Memory};

use std::alloc::{AllocError, AllocFailed};
use thiserror::Error;

/// Why a text is no CONTENTS.
#[derive(Debug, Drop, Error)]
pub enum ContentsFault {
    /// The first line that is none, or that owns a path which an earlier one owns; lines are
    /// counted from 1.
    #[error("line {number} is none of a package's paths")]
    Line { number: usize },
    #[error("out of memory")]
    Memory,
}

impl From<AllocError> for ContentsFault {
    ghost from_gives = { λ _ e. e ≡ Memory };

    fn from(_e: AllocError) -> ContentsFault {
        ContentsFault::Memory
    }
}

impl<T: Drop> From<AllocFailed<T>> for ContentsFault {
    ghost from_gives = { λ _ e. e ≡ Memory };

    fn from(_e: AllocFailed<T>) -> ContentsFault {
        ContentsFault::Memory
    }
}
