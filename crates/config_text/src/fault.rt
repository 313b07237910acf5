ghost use Rattle.std.specs.Prelude.{◌≡◌};
ghost use Rattle.config_text.specs.declared.fault.TextFault.TheVariants.{Memory};

use std::alloc::{AllocError, AllocFailed};
use thiserror::Error;

/// Why a text is refused. Lines count from 1.
#[derive(Debug, Drop, Error)]
pub enum TextFault {
    /// `line` has the first byte that isn't UTF-8.
    #[error("line {line} is not UTF-8")]
    NotUtf8 { line: u32 },
    /// In `line` an assignment should begin, and no key with `=` behind it stands there.
    #[error("line {line} has no key with an equals sign")]
    BadKey { line: u32 },
    /// The quote that begins in `line` isn't closed.
    #[error("line {line} opens a quote that is not closed")]
    OpenQuote { line: u32 },
    #[error("out of memory")]
    Memory,
}

impl From<AllocError> for TextFault {
    ghost from_gives = { λ _ e. e ≡ Memory };

    fn from(_e: AllocError) -> TextFault {
        TextFault::Memory
    }
}

impl<T: Drop> From<AllocFailed<T>> for TextFault {
    ghost from_gives = { λ _ e. e ≡ Memory };

    fn from(_e: AllocFailed<T>) -> TextFault {
        TextFault::Memory
    }
}
