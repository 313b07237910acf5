ghost use Rattle.std.specs.Prelude.{◌≡◌};
ghost use Rattle.pkg_state.specs.declared.broken.Broken.TheVariants.{Memory};

use dep_atom::{Atom, PackageId};
use std::alloc::{AllocError, AllocFailed};
use thiserror::Error;

/// Why packages are not consistent.
#[derive(Debug, Drop, Error)]
pub enum Broken {
    /// What it needs at run time is not there. No leaf is named of an any-of group without members.
    #[error("what a package needs at run time is not there")]
    Runtime {
        package: PackageId,
        leaf: Option<Atom>,
    },
    #[error("a package is blocked by another")]
    Blocked {
        package: PackageId,
        by: PackageId,
    },
    #[error("the flags of a package do not go together")]
    RequiredUse {
        package: PackageId,
    },
    #[error("two packages are on one line")]
    SlotTwice {
        package: PackageId,
        other: PackageId,
    },
    #[error("out of memory")]
    Memory,
}

impl From<AllocError> for Broken {
    ghost from_gives = { λ _ e. e ≡ Memory };

    fn from(_e: AllocError) -> Broken {
        Broken::Memory
    }
}

impl<T: Drop> From<AllocFailed<T>> for Broken {
    ghost from_gives = { λ _ e. e ≡ Memory };

    fn from(_e: AllocFailed<T>) -> Broken {
        Broken::Memory
    }
}
