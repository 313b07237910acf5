ghost use Rattle.std.specs.Prelude.{◌≡◌};
ghost use Rattle.dep_atom.specs.declared.fault.AtomFault.TheVariants.{Memory};

use std::alloc::{AllocError, AllocFailed};
use thiserror::Error;

/// Why a text is no package or no atom.
#[derive(Debug, Drop, Error)]
pub enum AtomFault {
    #[error("no category and package name")]
    Name,
    #[error("no version behind the package name")]
    Version,
    #[error("an operator without a version")]
    OperatorWithoutVersion,
    #[error("a version without an operator")]
    VersionWithoutOperator,
    #[error("an asterisk where none may stand")]
    BadStar,
    #[error("no slot part")]
    BadSlot,
    /// `at` is the first byte of the first USE item that is none. Where each is one, it is the end of
    /// a list that isn't closed, or the bracket behind which the text goes on.
    #[error("no USE item at {at}")]
    BadUse { at: usize },
    #[error("out of memory")]
    Memory,
}

impl From<AllocError> for AtomFault {
    ghost from_gives = { λ _ e. e ≡ Memory };

    fn from(_e: AllocError) -> AtomFault {
        AtomFault::Memory
    }
}

impl<T: Drop> From<AllocFailed<T>> for AtomFault {
    ghost from_gives = { λ _ e. e ≡ Memory };

    fn from(_e: AllocFailed<T>) -> AtomFault {
        AtomFault::Memory
    }
}
