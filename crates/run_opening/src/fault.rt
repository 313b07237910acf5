use file_tree::TreeFault;
use pkg_state::Broken;
use std::alloc::{AllocError, AllocFailed};
use thiserror::Error;
use vdb_record::Installed;
use vdb_text::DatabaseFault;

/// Why a run can't begin with a tree.
#[derive(Debug, Drop, Error)]
pub enum OpeningFault {
    /// The tree has no database within the limits whose packages are apart, or it can't be read.
    #[error(transparent)]
    Database(DatabaseFault),
    /// These packages are installed, and don't go together.
    #[error("the installed packages don't go together")]
    Inconsistent {
        fault: Broken,
        packages: Vec<Installed>,
    },
}

impl From<DatabaseFault> for OpeningFault {
    ghost use Rattle.std.specs.Prelude.{◌≡◌};
    ghost use Rattle.run_opening.specs.declared.fault.OpeningFault.TheVariants as faults;

    ghost from_gives = { λ f e. e ≡ faults.Database f };

    fn from(fault: DatabaseFault) -> OpeningFault {
        OpeningFault::Database(fault)
    }
}

impl From<TreeFault> for OpeningFault {
    ghost use Rattle.std.specs.Prelude.{◌≡◌};
    ghost use Rattle.run_opening.specs.Faults.{fault_of_tree};

    ghost from_gives = { λ f e. e ≡ fault_of_tree f };

    fn from(fault: TreeFault) -> OpeningFault {
        OpeningFault::Database(DatabaseFault::Tree(fault))
    }
}

impl From<AllocError> for OpeningFault {
    ghost use Rattle.std.specs.Prelude.{◌≡◌};
    ghost use Rattle.run_opening.specs.Faults.{out_of_memory};

    ghost from_gives = { λ _ e. e ≡ out_of_memory };

    fn from(_: AllocError) -> OpeningFault {
        OpeningFault::Database(DatabaseFault::Tree(TreeFault::Memory))
    }
}

impl<T: Drop> From<AllocFailed<T>> for OpeningFault {
    ghost use Rattle.std.specs.Prelude.{◌≡◌};
    ghost use Rattle.run_opening.specs.Faults.{out_of_memory};

    ghost from_gives = { λ _ e. e ≡ out_of_memory };

    fn from(_: AllocFailed<T>) -> OpeningFault {
        OpeningFault::Database(DatabaseFault::Tree(TreeFault::Memory))
    }
}
