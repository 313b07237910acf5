ghost use Rattle.std.specs.Prelude.{◌≡◌};
ghost use Rattle.dep_group.specs.declared.token.GroupFault.TheVariants.{Memory};

use std::alloc::{AllocError, AllocFailed};
use thiserror::Error;

/// What stands before the parenthesis of a group. A group with nothing before it wants all its
/// members.
#[derive(Debug, Drop)]
pub enum Opener<F> {
    AnyOf,
    ExactlyOne,
    AtMostOne,
    /// The members count where the flag is on, or where it is not on.
    When { flag: F, on: bool },
}

/// What a word of a text of groups is read as, where `K` opens groups.
#[derive(Debug, Drop)]
pub enum Token<K, L> {
    Leaf(L),
    Begins(K),
    Opens,
    Closes,
    /// A parenthesis glued to other text.
    Glued,
    /// Neither a leaf nor anything else that is known.
    Unknown,
}

/// Why words are no groups. A place is that of a word: its index, counted from 0, or of a text that
/// of the word's first byte.
#[derive(Debug, Drop, Error)]
pub enum GroupFault {
    #[error("no leaf at {at}")]
    Leaf { at: usize },
    #[error("the group at {at} is not closed")]
    Open { at: usize },
    #[error("no group for the parenthesis at {at} to close")]
    Close { at: usize },
    #[error("a parenthesis without a space in the word at {at}")]
    NoSpace { at: usize },
    #[error("the leaf at {at} may not stand in an any-of group")]
    Barred { at: usize },
    #[error("more than 64 groups are open")]
    Depth,
    #[error("out of memory")]
    Memory,
}

impl From<AllocError> for GroupFault {
    ghost from_gives = { λ _ e. e ≡ Memory };

    fn from(_e: AllocError) -> GroupFault {
        GroupFault::Memory
    }
}

impl<T: Drop> From<AllocFailed<T>> for GroupFault {
    ghost from_gives = { λ _ e. e ≡ Memory };

    fn from(_e: AllocFailed<T>) -> GroupFault {
        GroupFault::Memory
    }
}
