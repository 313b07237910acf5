use file_tree::TreeFault;
use std::alloc::{AllocError, AllocFailed};
use thiserror::Error;

/// Why open groups weren't all found in form: the first group that isn't, and its first stage that
/// isn't as recorded, counted from 0.
#[derive(Clone, Copy, Debug, PartialEq, Eq, Error)]
pub enum JudgeFault {
    #[error("the record of group {group} is bad")]
    BadRecord { group: u32 },
    #[error("stage {index} of group {group} is bad")]
    BadStage { group: u32, index: u32 },
    #[error(transparent)]
    Tree(TreeFault),
}

impl From<AllocError> for JudgeFault {
    ghost use Rattle.std.specs.Prelude.{◌≡◌};
    ghost use Rattle.file_tree.specs.declared.fault.TreeFault.TheVariants as trees;
    ghost use Rattle.merge_journal.specs.declared.fault.JudgeFault.TheVariants as faults;

    ghost from_gives = { λ _ e. e ≡ faults.Tree trees.Memory };

    fn from(_: AllocError) -> JudgeFault {
        JudgeFault::Tree(TreeFault::Memory)
    }
}

impl<T: Drop> From<AllocFailed<T>> for JudgeFault {
    ghost use Rattle.std.specs.Prelude.{◌≡◌};
    ghost use Rattle.file_tree.specs.declared.fault.TreeFault.TheVariants as trees;
    ghost use Rattle.merge_journal.specs.declared.fault.JudgeFault.TheVariants as faults;

    ghost from_gives = { λ _ e. e ≡ faults.Tree trees.Memory };

    fn from(_: AllocFailed<T>) -> JudgeFault {
        JudgeFault::Tree(TreeFault::Memory)
    }
}

impl From<TreeFault> for JudgeFault {
    ghost use Rattle.std.specs.Prelude.{◌≡◌};
    ghost use Rattle.merge_journal.specs.declared.fault.JudgeFault.TheVariants as faults;

    ghost from_gives = { λ f e. e ≡ faults.Tree f };

    fn from(fault: TreeFault) -> JudgeFault {
        JudgeFault::Tree(fault)
    }
}
