ghost use Rattle.std.specs.Prelude.{◌≡◌};
ghost use Rattle.config_vars.specs.declared.fault.VarFault.TheVariants.{Memory};

use file_tree::Path;
use std::alloc::{AllocError, AllocFailed};
use thiserror::Error;

/// Why the variables are refused.
#[derive(Debug, Drop, Error)]
pub enum VarFault {
    /// The line of the file gives a variable a value that it may not have.
    #[error("line {line} of a file gives a variable a value that it may not have")]
    Value { path: Path, line: u32 },
    #[error("out of memory")]
    Memory,
}

impl From<AllocError> for VarFault {
    ghost from_gives = { λ _ e. e ≡ Memory };

    fn from(_: AllocError) -> VarFault {
        VarFault::Memory
    }
}

impl<T: Drop> From<AllocFailed<T>> for VarFault {
    ghost from_gives = { λ _ e. e ≡ Memory };

    fn from(_: AllocFailed<T>) -> VarFault {
        VarFault::Memory
    }
}
