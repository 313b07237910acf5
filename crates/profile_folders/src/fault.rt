use file_tree::{Failed, Path, TreeFault};
use std::alloc::{AllocError, AllocFailed};
use thiserror::Error;

/// Why a profile can't be read. Lines count from 1.
#[derive(Debug, Drop, Error)]
pub enum ProfileFault {
    /// The folder, or the profile's link, that must be there and isn't.
    #[error("a folder of the profile is missing")]
    Missing { path: Path },
    /// The line of the file `parent` that makes a profile its own ancestor.
    #[error("line {line} of a file makes a profile its own ancestor")]
    Loop { path: Path, line: u32 },
    /// The line of the file `parent` that asks for one profile too many.
    #[error("line {line} of a file asks for too many profiles")]
    Deep { path: Path, line: u32 },
    /// The first line of the file that isn't in form.
    #[error("line {line} of a file of the profile is none of its form")]
    Text { path: Path, line: u32 },
    #[error(transparent)]
    Tree(TreeFault),
}

impl From<AllocError> for ProfileFault {
    ghost use Rattle.std.specs.Prelude.{◌≡◌};
    ghost use Rattle.file_tree.specs.declared.fault.TreeFault.TheVariants as trees;
    ghost use Rattle.profile_folders.specs.declared.fault.ProfileFault.TheVariants as faults;

    ghost from_gives = { λ _ e. e ≡ faults.Tree trees.Memory };

    fn from(_: AllocError) -> ProfileFault {
        ProfileFault::Tree(TreeFault::Memory)
    }
}

impl<T: Drop> From<AllocFailed<T>> for ProfileFault {
    ghost use Rattle.std.specs.Prelude.{◌≡◌};
    ghost use Rattle.file_tree.specs.declared.fault.TreeFault.TheVariants as trees;
    ghost use Rattle.profile_folders.specs.declared.fault.ProfileFault.TheVariants as faults;

    ghost from_gives = { λ _ e. e ≡ faults.Tree trees.Memory };

    fn from(_: AllocFailed<T>) -> ProfileFault {
        ProfileFault::Tree(TreeFault::Memory)
    }
}

impl From<TreeFault> for ProfileFault {
    ghost use Rattle.std.specs.Prelude.{◌≡◌};
    ghost use Rattle.profile_folders.specs.declared.fault.ProfileFault.TheVariants as faults;

    ghost from_gives = { λ f e. e ≡ faults.Tree f };

    fn from(fault: TreeFault) -> ProfileFault {
        ProfileFault::Tree(fault)
    }
}

impl From<Failed> for ProfileFault {
    ghost use Rattle.std.specs.Prelude.{◌≡◌};
    ghost use Rattle.file_tree.specs.declared.fault.TreeFault.TheVariants as trees;
    ghost use Rattle.profile_folders.specs.declared.fault.ProfileFault.TheVariants as faults;

    ghost from_gives = { λ _ e. e ≡ faults.Tree trees.Failed };

    fn from(_: Failed) -> ProfileFault {
        ProfileFault::Tree(TreeFault::Failed)
    }
}
