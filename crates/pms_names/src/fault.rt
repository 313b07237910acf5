ghost use Rattle.std.specs.Prelude.{◌≡◌};
ghost use Rattle.pms_names.specs.declared.fault.NameFault.TheVariants.{Memory};

use std::alloc::{AllocError, AllocFailed};
use thiserror::Error;

/// Why a text is no name. Where several hold, the first of Empty, TooLong, BadStart, BadChar and
/// EndsLikeVersion is given.
#[derive(Debug, Drop, Error)]
pub enum NameFault {
    #[error("an empty name")]
    Empty,
    /// `at` is the first byte that the kind of name never contains.
    #[error("a name has a byte at {at} that it may not have")]
    BadChar { at: usize },
    #[error("a name begins with a byte that it may not begin with")]
    BadStart,
    #[error("a package name ends in a hyphen and a version")]
    EndsLikeVersion,
    #[error("a name of more than 255 bytes")]
    TooLong,
    #[error("out of memory")]
    Memory,
}

impl From<AllocError> for NameFault {
    ghost from_gives = { λ _ e. e ≡ Memory };

    fn from(_e: AllocError) -> NameFault {
        NameFault::Memory
    }
}

impl<T: Drop> From<AllocFailed<T>> for NameFault {
    ghost from_gives = { λ _ e. e ≡ Memory };

    fn from(_e: AllocFailed<T>) -> NameFault {
        NameFault::Memory
    }
}
