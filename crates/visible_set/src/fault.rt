ghost use Rattle.std.specs.Prelude.{◌≡◌};
ghost use Rattle.visible_set.specs.Faults.{fault_of, fault_of_profile, fault_of_value};

use config_vars::VarFault;
use file_tree::{Path, TreeFault};
use profile_folders::ProfileFault;
use profile_lines::ReadFault;
use std::alloc::AllocError;
use thiserror::Error;

/// Why there are no offers.
#[derive(Debug, Drop, Error)]
pub enum OffersFault {
    /// The file of the configuration isn't in form at this line, counted from 1. A folder that is
    /// missing has line 0.
    #[error("line {line} of a configuration file is not in form")]
    Text { path: Path, line: u32 },
    /// More candidates are visible than `MOST_CANDIDATES`.
    #[error("too many candidates are visible")]
    Limit,
    #[error(transparent)]
    Tree(TreeFault),
}

impl From<AllocError> for OffersFault {
    ghost use Rattle.std.specs.Prelude.{◌≡◌};
    ghost use Rattle.file_tree.specs.declared.fault.TreeFault.TheVariants as trees;
    ghost use Rattle.visible_set.specs.declared.fault.OffersFault.TheVariants as faults;

    ghost from_gives = { λ _ e. e ≡ faults.Tree trees.Memory };

    fn from(_: AllocError) -> OffersFault {
        OffersFault::Tree(TreeFault::Memory)
    }
}

impl From<TreeFault> for OffersFault {
    ghost use Rattle.std.specs.Prelude.{◌≡◌};
    ghost use Rattle.visible_set.specs.declared.fault.OffersFault.TheVariants as faults;

    ghost from_gives = { λ f e. e ≡ faults.Tree f };

    fn from(fault: TreeFault) -> OffersFault {
        OffersFault::Tree(fault)
    }
}

/// What a fault of the profile or of the user's files is called.
pub(crate) fn fault_of(fault: ReadFault) -> OffersFault
    ensures { result ≡ fault_of fault }
{
    match fault {
        ReadFault::Profile(fault) => fault_of_profile(fault),
        ReadFault::Atom { path, line } => OffersFault::Text { path, line },
    }
}

fn fault_of_profile(fault: ProfileFault) -> OffersFault
    ensures { result ≡ fault_of_profile fault }
{
    match fault {
        ProfileFault::Missing { path } => OffersFault::Text { path, line: 0 },
        ProfileFault::Loop { path, line } => OffersFault::Text { path, line },
        ProfileFault::Deep { path, line } => OffersFault::Text { path, line },
        ProfileFault::Text { path, line } => OffersFault::Text { path, line },
        ProfileFault::Tree(fault) => OffersFault::Tree(fault),
    }
}

/// What a fault of a variable's value is called.
pub(crate) fn fault_of_value(fault: VarFault) -> OffersFault
    ensures { result ≡ fault_of_value fault }
{
    match fault {
        VarFault::Value { path, line } => OffersFault::Text { path, line },
        VarFault::Memory => OffersFault::Tree(TreeFault::Memory),
    }
}
