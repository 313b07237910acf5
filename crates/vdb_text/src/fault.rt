use file_tree::{Path, Quantity, TreeFault};
use std::alloc::{AllocError, AllocFailed};
use thiserror::Error;

/// Why a tree has no database of installed packages.
#[derive(Debug, Drop, Error)]
pub enum DatabaseFault {
    /// The folder that counts and has the name of no package.
    #[error("a folder of the database names no package")]
    Name { path: Path },
    /// The file that must be there and isn't.
    #[error("a file of a record is missing")]
    Missing { path: Path },
    /// The file of an edition of the standard that isn't supported.
    #[error("a record is of another EAPI")]
    Eapi { path: Path },
    /// The first line of the file that is none of its form, counted from 1 up to `u32::MAX`.
    #[error("line {line} of a file of a record is none of its form")]
    Text { path: Path, line: u32 },
    /// The first place of the value that is no tree, counted from its first byte that is no blank.
    #[error("a value of a record is no tree at {at}")]
    Dep { path: Path, at: usize },
    /// More packages are installed than may be, or they own more paths.
    #[error("the database has too much of a quantity")]
    Limit { quantity: Quantity },
    /// The first path that two packages own.
    #[error("two packages own a path")]
    OwnedTwice { path: Path },
    /// The first owned path that is above another, and the first of those.
    #[error("an owned path is above another")]
    Nested { path: Path, below: Path },
    #[error(transparent)]
    Tree(TreeFault),
}

impl From<AllocError> for DatabaseFault {
    ghost use Rattle.std.specs.Prelude.{◌≡◌};
    ghost use Rattle.file_tree.specs.declared.fault.TreeFault.TheVariants as trees;
    ghost use Rattle.vdb_text.specs.declared.fault.DatabaseFault.TheVariants as faults;

    ghost from_gives = { λ _ e. e ≡ faults.Tree trees.Memory };

    fn from(_: AllocError) -> DatabaseFault {
        DatabaseFault::Tree(TreeFault::Memory)
    }
}

impl<T: Drop> From<AllocFailed<T>> for DatabaseFault {
    ghost use Rattle.std.specs.Prelude.{◌≡◌};
    ghost use Rattle.file_tree.specs.declared.fault.TreeFault.TheVariants as trees;
    ghost use Rattle.vdb_text.specs.declared.fault.DatabaseFault.TheVariants as faults;

    ghost from_gives = { λ _ e. e ≡ faults.Tree trees.Memory };

    fn from(_: AllocFailed<T>) -> DatabaseFault {
        DatabaseFault::Tree(TreeFault::Memory)
    }
}

impl From<TreeFault> for DatabaseFault {
    ghost use Rattle.std.specs.Prelude.{◌≡◌};
    ghost use Rattle.vdb_text.specs.declared.fault.DatabaseFault.TheVariants as faults;

    ghost from_gives = { λ f e. e ≡ faults.Tree f };

    fn from(fault: TreeFault) -> DatabaseFault {
        DatabaseFault::Tree(fault)
    }
}
