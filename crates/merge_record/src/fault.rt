use std::alloc::{AllocError, AllocFailed};
use thiserror::Error;

/// Why bytes are no record, the first fault from the left. A place is counted from 0. `encode`
/// answers `Limit` and `Memory` alone.
#[derive(Debug, Drop, Error)]
pub enum DecodeFault {
    #[error("the record ends early")]
    Short,
    #[error("a byte that no record has, at {at}")]
    Tag { at: usize },
    /// The place is that of the text's first byte, behind its length.
    #[error("a text that is no path, at {at}")]
    Path { at: usize },
    #[error("bytes stand behind the record")]
    Trailing,
    #[error("the record passes a limit")]
    Limit,
    #[error("out of memory")]
    Memory,
}

impl From<AllocError> for DecodeFault {
    ghost use Rattle.std.specs.Prelude.{◌≡◌};
    ghost use Rattle.merge_record.specs.declared.fault.DecodeFault.TheVariants as faults;

    ghost from_gives = { λ _ e. e ≡ faults.Memory };

    fn from(_: AllocError) -> DecodeFault {
        DecodeFault::Memory
    }
}

impl<T: Drop> From<AllocFailed<T>> for DecodeFault {
    ghost use Rattle.std.specs.Prelude.{◌≡◌};
    ghost use Rattle.merge_record.specs.declared.fault.DecodeFault.TheVariants as faults;

    ghost from_gives = { λ _ e. e ≡ faults.Memory };

    fn from(_: AllocFailed<T>) -> DecodeFault {
        DecodeFault::Memory
    }
}
