use file_tree::{Path, TreeFault};
use profile_folders::ProfileFault;
use std::alloc::{AllocError, AllocFailed};
use thiserror::Error;

/// Why a profile can't be read as a whole, or a line file can't be read. Lines count from 1.
#[derive(Debug, Drop, Error)]
pub enum ReadFault {
    /// Folders, lines or variables can't be read, or a word that should be a change of flags is
    /// none.
    #[error("the profile is not there, or not in form")]
    Profile(ProfileFault),
    /// The line of the file where a word that should be an atom is none, or where a second word
    /// stands behind a mask.
    #[error("line {line} of a configuration file names no package")]
    Atom { path: Path, line: u32 },
}

impl From<ProfileFault> for ReadFault {
    ghost use Rattle.std.specs.Prelude.{◌≡◌};
    ghost use Rattle.profile_lines.specs.declared.fault.ReadFault.TheVariants as faults;

    ghost from_gives = { λ f e. e ≡ faults.Profile f };

    fn from(fault: ProfileFault) -> ReadFault {
        ReadFault::Profile(fault)
    }
}

impl From<AllocError> for ReadFault {
    ghost use Rattle.std.specs.Prelude.{◌≡◌};
    ghost use Rattle.profile_lines.specs.Faults.{out_of_memory};

    ghost from_gives = { λ _ e. e ≡ out_of_memory };

    fn from(_: AllocError) -> ReadFault {
        ReadFault::Profile(ProfileFault::Tree(TreeFault::Memory))
    }
}

impl<T: Drop> From<AllocFailed<T>> for ReadFault {
    ghost use Rattle.std.specs.Prelude.{◌≡◌};
    ghost use Rattle.profile_lines.specs.Faults.{out_of_memory};

    ghost from_gives = { λ _ e. e ≡ out_of_memory };

    fn from(_: AllocFailed<T>) -> ReadFault {
        ReadFault::Profile(ProfileFault::Tree(TreeFault::Memory))
    }
}

/// Why a line isn't in form.
#[derive(Clone, Copy, Debug)]
pub enum LineFault {
    /// A word that should be an atom is none, or a second word stands behind a mask.
    NoAtom,
    /// A word that should be a change of flags is none.
    NoChange,
    Memory,
}

impl From<AllocError> for LineFault {
    ghost use Rattle.std.specs.Prelude.{◌≡◌};
    ghost use Rattle.profile_lines.specs.declared.fault.LineFault.TheVariants as faults;

    ghost from_gives = { λ _ e. e ≡ faults.Memory };

    fn from(_: AllocError) -> LineFault {
        LineFault::Memory
    }
}

impl<T: Drop> From<AllocFailed<T>> for LineFault {
    ghost use Rattle.std.specs.Prelude.{◌≡◌};
    ghost use Rattle.profile_lines.specs.declared.fault.LineFault.TheVariants as faults;

    ghost from_gives = { λ _ e. e ≡ faults.Memory };

    fn from(_: AllocFailed<T>) -> LineFault {
        LineFault::Memory
    }
}
