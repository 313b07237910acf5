ghost use Rattle.std.specs.Prelude.{◌≡◌};
ghost use Rattle.vdb_record.specs.declared.fault.RecordFault.TheVariants.{Memory};

use crate::file::RecordFile;
use std::alloc::{AllocError, AllocFailed};
use thiserror::Error;

/// Why the files of a folder tell no package.
#[derive(Debug, Drop, Error)]
pub enum RecordFault {
    /// A file that must be there isn't.
    #[error("a file of the record is missing")]
    Missing { file: RecordFile },
    /// The edition of the standard isn't one that is read.
    #[error("the record is of another EAPI")]
    Eapi,
    /// The first line of a file that is none of its form, counted from 1 up to `u32::MAX`.
    #[error("line {line} of a file of the record is none of its form")]
    Text { file: RecordFile, line: u32 },
    /// The first place of a value that is no tree, counted from its first byte that is no blank.
    #[error("a value of the record is no tree at {at}")]
    Dep { file: RecordFile, at: usize },
    #[error("out of memory")]
    Memory,
}

impl From<AllocError> for RecordFault {
    ghost from_gives = { λ _ e. e ≡ Memory };

    fn from(_e: AllocError) -> RecordFault {
        RecordFault::Memory
    }
}

impl<T: Drop> From<AllocFailed<T>> for RecordFault {
    ghost from_gives = { λ _ e. e ≡ Memory };

    fn from(_e: AllocFailed<T>) -> RecordFault {
        RecordFault::Memory
    }
}
