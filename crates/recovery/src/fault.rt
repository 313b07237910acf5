use file_tree::{Failed, TreeFault};
use merge_journal::JudgeFault;
use std::alloc::{AllocError, AllocFailed};
use thiserror::Error;

/// What recovery refuses, or fails with.
#[derive(Clone, Copy, Debug, PartialEq, Eq, Error)]
pub enum RecoverFault {
    /// The record of an open group isn't in form, isn't the group's own, or has a path that is taken.
    #[error("the record of group {group} is broken")]
    BadRecord { group: u32 },
    /// A stage of an open group isn't as its record tells.
    #[error("stage {index} of group {group} is broken")]
    BadStage { group: u32, index: u32 },
    /// More gates hold an object than are recovered.
    #[error("the journal has too many gates")]
    Limit,
    #[error(transparent)]
    Tree(TreeFault),
}

impl From<Failed> for RecoverFault {
    ghost use Rattle.std.specs.Prelude.{◌≡◌};
    ghost use Rattle.file_tree.specs.declared.fault.TreeFault.TheVariants as trees;
    ghost use Rattle.recovery.specs.declared.fault.RecoverFault.TheVariants as faults;

    ghost from_gives = { λ _ e. e ≡ faults.Tree trees.Failed };

    fn from(_: Failed) -> RecoverFault {
        RecoverFault::Tree(TreeFault::Failed)
    }
}

impl From<AllocError> for RecoverFault {
    ghost use Rattle.std.specs.Prelude.{◌≡◌};
    ghost use Rattle.file_tree.specs.declared.fault.TreeFault.TheVariants as trees;
    ghost use Rattle.recovery.specs.declared.fault.RecoverFault.TheVariants as faults;

    ghost from_gives = { λ _ e. e ≡ faults.Tree trees.Memory };

    fn from(_: AllocError) -> RecoverFault {
        RecoverFault::Tree(TreeFault::Memory)
    }
}

impl<T: Drop> From<AllocFailed<T>> for RecoverFault {
    ghost use Rattle.std.specs.Prelude.{◌≡◌};
    ghost use Rattle.file_tree.specs.declared.fault.TreeFault.TheVariants as trees;
    ghost use Rattle.recovery.specs.declared.fault.RecoverFault.TheVariants as faults;

    ghost from_gives = { λ _ e. e ≡ faults.Tree trees.Memory };

    fn from(_: AllocFailed<T>) -> RecoverFault {
        RecoverFault::Tree(TreeFault::Memory)
    }
}

impl From<TreeFault> for RecoverFault {
    ghost use Rattle.std.specs.Prelude.{◌≡◌};
    ghost use Rattle.recovery.specs.declared.fault.RecoverFault.TheVariants as faults;

    ghost from_gives = { λ f e. e ≡ faults.Tree f };

    fn from(fault: TreeFault) -> RecoverFault {
        RecoverFault::Tree(fault)
    }
}

impl From<JudgeFault> for RecoverFault {
    ghost use Rattle.std.specs.Prelude.{◌≡◌};
    ghost use Rattle.recovery.specs.Faults.{judge_fault};

    ghost from_gives = { λ f e. e ≡ judge_fault f };

    fn from(fault: JudgeFault) -> RecoverFault {
        match fault {
            JudgeFault::BadRecord { group } => RecoverFault::BadRecord { group },
            JudgeFault::BadStage { group, index } => RecoverFault::BadStage { group, index },
            JudgeFault::Tree(fault) => RecoverFault::Tree(fault),
        }
    }
}
