use crate::reason::NotTaken;
use choice_ends::DeadEnd;
use choice_tree::Choice;
use dep_atom::{Atom, PackageId};
use merge_groups::NotArranged;
use plan_model::{LinkFault, NotAccepted};
use plan_rules::PlanRefused;
use std::alloc::AllocError;
use thiserror::Error;

/// Why a command has no plan.
#[derive(Debug, Drop, Error)]
pub enum NotChosen {
    /// The first wanted atom that matches neither what is installed nor a variant, and the
    /// candidates of its name.
    #[error("an atom matches nothing that may be installed")]
    NoCandidate {
        atom: Atom,
        reasons: Vec<NotTaken>,
    },
    /// The first ten of the choices that were tried in vain.
    #[error("there is no solution")]
    NoSolution {
        dead: Vec<DeadEnd>,
    },
    /// So many choices were tried in vain: these, in their order, and the first ten as dead ends.
    #[error("the limit of choices that are tried in vain is reached")]
    BacktrackLimit {
        refuted: Vec<Choice>,
        dead: Vec<DeadEnd>,
    },
    /// These packages of the choice wait for one another, and some of them build on others of them.
    #[error("packages build on one another")]
    BuildCycle {
        packages: Vec<PackageId>,
    },
    /// The choice would have more than 4,096 groups.
    #[error("there are too many groups")]
    Limit,
    /// A variant is none of an offered package.
    #[error("what is chosen is not offered")]
    Unlinked(LinkFault),
    /// Neither plan of the choice is accepted: what is wrong with that of levels.
    #[error("the plan is not accepted")]
    NoOrder(PlanRefused),
    #[error("out of memory")]
    Memory,
}

impl From<AllocError> for NotChosen {
    ghost use Rattle.std.specs.Prelude.{◌≡◌};
    ghost use Rattle.emerge_choose.specs.declared.fault.NotChosen.TheVariants.{Memory};

    ghost from_gives = { λ _ e. e ≡ Memory };

    fn from(_e: AllocError) -> NotChosen {
        NotChosen::Memory
    }
}

impl From<NotArranged> for NotChosen {
    ghost use Rattle.std.specs.Prelude.{◌≡◌};
    ghost use Rattle.emerge_choose.specs.Answers.{not_arranged};

    ghost from_gives = { λ fault e. e ≡ not_arranged fault };

    fn from(fault: NotArranged) -> NotChosen {
        match fault {
            NotArranged::BuildCycle { packages } => NotChosen::BuildCycle { packages },
            NotArranged::Limit => NotChosen::Limit,
            NotArranged::Memory => NotChosen::Memory,
        }
    }
}

impl From<NotAccepted> for NotChosen {
    ghost use Rattle.std.specs.Prelude.{◌≡◌};
    ghost use Rattle.emerge_choose.specs.Answers.{not_accepted};

    ghost from_gives = { λ fault e. e ≡ not_accepted fault };

    fn from(fault: NotAccepted) -> NotChosen {
        match fault {
            NotAccepted::Unlinked(fault) => NotChosen::Unlinked(fault),
            NotAccepted::Refused(refused) => NotChosen::NoOrder(refused),
            NotAccepted::Memory => NotChosen::Memory,
        }
    }
}
