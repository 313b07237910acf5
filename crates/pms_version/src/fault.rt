ghost use Rattle.pms_version.specs.declared.fault.VersionFault.TheVariants.{Memory};
ghost use Rattle.std.specs.Prelude.{◌≡◌};

use std::alloc::{AllocError, AllocFailed};
use thiserror::Error;

/// Why a text is not read as a version.
#[derive(Debug, Drop, Error)]
pub enum VersionFault {
    #[error("a version is empty")]
    Empty,
    /// The first byte with which the text stops beginning any version, or its length.
    #[error("no version goes on with what stands at byte {at}")]
    BadChar { at: usize },
    /// The first digit of a number of more than 38 digits.
    #[error("the number at byte {at} has more than 38 digits")]
    TooManyDigits { at: usize },
    #[error("a version is longer than 255 bytes")]
    TooLong,
    #[error("out of memory")]
    Memory,
}

impl From<AllocError> for VersionFault {
    ghost from_gives = { λ _ e. e ≡ Memory };

    fn from(_error: AllocError) -> VersionFault {
        VersionFault::Memory
    }
}

impl<T: Drop> From<AllocFailed<T>> for VersionFault {
    ghost from_gives = { λ _ e. e ≡ Memory };

    fn from(_failed: AllocFailed<T>) -> VersionFault {
        VersionFault::Memory
    }
}
