use file_tree::{Path, TreeFault};
use merge_core::Refusal;
use merge_fit::ImageBad;
use owner_book::{ClaimFault, Collision};
use std::alloc::AllocError;
use thiserror::Error;

/// Why an event that brings something didn't come, or failed.
#[derive(Debug, Drop, Error)]
pub enum SiteFault {
    #[error("too many paths, or too many bytes of them")]
    Limit,
    #[error(transparent)]
    Tree(TreeFault),
}

impl SiteFault {
    ghost use Rattle.std.specs.Prelude.{◌≡◌, ◌⊎◌};
    ghost use Rattle.file_tree.specs.declared.fault.TreeFault.TheVariants as trees;
    ghost use Rattle.merge_core.specs.declared.refusal.Refusal.TheVariants as refusals;
    ghost use Rattle.merge_site.specs.declared.fault.SiteFault.TheVariants as faults;

    /// The refusal of an event that may come but for what it brings.
    pub(crate) fn of(refusal: Refusal) -> SiteFault
        requires { (refusal ≡ refusals.Limit) ⊎ (refusal ≡ refusals.Memory) }
        ensures limit { result ≡ faults.Limit → refusal ≡ refusals.Limit }
        ensures none { ¬ (result ≡ faults.Tree trees.Failed) }
    {
        match refusal {
            Refusal::Limit => SiteFault::Limit,
            _ => SiteFault::Tree(TreeFault::Memory),
        }
    }
}

/// Why an entry wasn't staged.
#[derive(Debug, Drop, Error)]
pub enum StageFault {
    #[error(transparent)]
    Image(ImageBad),
    #[error("too many entries")]
    Limit,
    #[error(transparent)]
    Tree(TreeFault),
}

/// Why a group's claim wasn't granted.
#[derive(Debug, Drop, Error)]
pub enum ClaimStop {
    #[error(transparent)]
    Collision(Collision),
    #[error(transparent)]
    Image(ImageBad),
    /// The first removal of the record that no package that goes owns, or that a claim has.
    #[error("a path may not be removed")]
    Removal { path: Path },
    /// A path of the record stands twice in it, or meets the journal.
    #[error("the paths of a record overlap, or meet the journal")]
    Overlap,
    #[error("too many paths")]
    Limit,
    #[error(transparent)]
    Tree(TreeFault),
}

impl From<AllocError> for ClaimStop {
    ghost use Rattle.std.specs.Prelude.{◌≡◌};
    ghost use Rattle.file_tree.specs.declared.fault.TreeFault.TheVariants as trees;
    ghost use Rattle.merge_site.specs.declared.fault.ClaimStop.TheVariants as stops;

    ghost from_gives = { λ _ s. s ≡ stops.Tree trees.Memory };

    fn from(_: AllocError) -> ClaimStop {
        ClaimStop::Tree(TreeFault::Memory)
    }
}

impl ClaimStop {
    ghost use Rattle.std.specs.Prelude.{◌≡◌};
    ghost use Rattle.merge_site.specs.Stopping.{stop_of};

    /// What a refusal of the book is.
    pub(crate) fn of(fault: ClaimFault) -> ClaimStop
        ensures { result ≡ stop_of fault }
    {
        match fault {
            ClaimFault::Image(bad) => ClaimStop::Image(bad),
            ClaimFault::Collision(collision) => ClaimStop::Collision(collision),
            ClaimFault::Limit => ClaimStop::Limit,
            ClaimFault::Memory => ClaimStop::Tree(TreeFault::Memory),
        }
    }
}
