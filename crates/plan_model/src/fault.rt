use dep_atom::PackageId;
use plan_rules::PlanRefused;
use pms_names::Flag;
use std::alloc::{AllocError, AllocFailed};
use thiserror::Error;

/// Why a text is no plan over the packages that are offered. A group is told by its number.
#[derive(Debug, Drop, Error)]
pub enum LinkFault {
    #[error("no package is offered with the name, the version and the slots of an addition")]
    NoCandidate {
        group: usize,
        package: PackageId,
    },
    #[error("an addition has a flag that its package does not know")]
    BadFlag {
        group: usize,
        package: PackageId,
        flag: Flag,
    },
    #[error("out of memory")]
    Memory,
}

/// Why the text of a plan isn't accepted.
#[derive(Debug, Drop, Error)]
pub enum NotAccepted {
    /// An addition isn't offered as it is written.
    #[error("the plan is none over the packages that are offered")]
    Unlinked(LinkFault),
    #[error("the plan breaks a rule of the check")]
    Refused(PlanRefused),
    #[error("out of memory")]
    Memory,
}

impl From<AllocError> for LinkFault {
    ghost use Rattle.std.specs.Prelude.{◌≡◌};
    ghost use Rattle.plan_model.specs.declared.fault.LinkFault.TheVariants.{Memory};

    ghost from_gives = { λ _ e. e ≡ Memory };

    fn from(_e: AllocError) -> LinkFault {
        LinkFault::Memory
    }
}

impl<T: Drop> From<AllocFailed<T>> for LinkFault {
    ghost use Rattle.std.specs.Prelude.{◌≡◌};
    ghost use Rattle.plan_model.specs.declared.fault.LinkFault.TheVariants.{Memory};

    ghost from_gives = { λ _ e. e ≡ Memory };

    fn from(_e: AllocFailed<T>) -> LinkFault {
        LinkFault::Memory
    }
}

impl From<AllocError> for NotAccepted {
    ghost use Rattle.std.specs.Prelude.{◌≡◌};
    ghost use Rattle.plan_model.specs.declared.fault.NotAccepted.TheVariants.{Memory};

    ghost from_gives = { λ _ e. e ≡ Memory };

    fn from(_e: AllocError) -> NotAccepted {
        NotAccepted::Memory
    }
}
