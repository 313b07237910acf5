use std::alloc::{AllocError, AllocFailed};
use thiserror::Error;

/// Why a text is no path, with the place of the byte in the text, counted from 0.
#[derive(Debug, Drop, Error)]
pub enum PathFault {
    #[error("the path is empty")]
    Empty,
    #[error("a byte that no path has, at {at}")]
    BadChar { at: usize },
    #[error("a part that no path has, at {at}")]
    BadPart { at: usize },
    #[error("the path is too long")]
    TooLong,
    #[error("out of memory")]
    Memory,
}

impl From<AllocError> for PathFault {
    ghost use Rattle.std.specs.Prelude.{◌≡◌};
    ghost use Rattle.file_tree.specs.declared.fault.PathFault.TheVariants.{Memory};

    ghost from_gives = { λ _ e. e ≡ Memory };

    fn from(_: AllocError) -> PathFault {
        PathFault::Memory
    }
}

/// A device or an output failed. Its count of faults rose.
#[derive(Clone, Copy, Debug, PartialEq, Eq)]
pub struct Failed;

/// Why a call of a tree that takes memory has no answer.
#[derive(Clone, Copy, Debug, PartialEq, Eq, Error)]
pub enum TreeFault {
    #[error("the device failed")]
    Failed,
    #[error("out of memory")]
    Memory,
}

impl From<Failed> for TreeFault {
    ghost use Rattle.std.specs.Prelude.{◌≡◌};
    ghost use Rattle.file_tree.specs.declared.fault.TreeFault.TheVariants as faults;

    ghost from_gives = { λ _ e. e ≡ faults.Failed };

    fn from(_: Failed) -> TreeFault {
        TreeFault::Failed
    }
}

impl From<AllocError> for TreeFault {
    ghost use Rattle.std.specs.Prelude.{◌≡◌};
    ghost use Rattle.file_tree.specs.declared.fault.TreeFault.TheVariants as faults;

    ghost from_gives = { λ _ e. e ≡ faults.Memory };

    fn from(_: AllocError) -> TreeFault {
        TreeFault::Memory
    }
}

impl<T: Drop> From<AllocFailed<T>> for TreeFault {
    ghost use Rattle.std.specs.Prelude.{◌≡◌};
    ghost use Rattle.file_tree.specs.declared.fault.TreeFault.TheVariants as faults;

    ghost from_gives = { λ _ e. e ≡ faults.Memory };

    fn from(_: AllocFailed<T>) -> TreeFault {
        TreeFault::Memory
    }
}
