use dep_atom::PackageId;
use plan_text::Plan;
use std::alloc::AllocError;
use thiserror::Error;

/// The two plans of a choice.
#[derive(Debug, Drop)]
pub struct Arranged {
    /// A group for each component of the changes.
    pub fine: Plan,
    /// A group for each level.
    pub level: Plan,
}

/// Why the changes of a choice aren't put into groups.
#[derive(Debug, Drop, Error)]
pub enum NotArranged {
    /// These packages wait for one another, and some of them build on others of them.
    #[error("packages build on one another")]
    BuildCycle { packages: Vec<PackageId> },
    /// There would be more than 4,096 groups.
    #[error("there are too many groups")]
    Limit,
    #[error("out of memory")]
    Memory,
}

impl From<AllocError> for NotArranged {
    ghost use Rattle.std.specs.Prelude.{◌≡◌};
    ghost use Rattle.merge_groups.specs.declared.arranged.NotArranged.TheVariants.{Memory};

    ghost from_gives = { λ _ e. e ≡ Memory };

    fn from(_e: AllocError) -> NotArranged {
        NotArranged::Memory
    }
}
