use thiserror::Error;

/// Why a text is no REQUIRED_USE. A place is that of a word's first byte.
#[derive(Debug, Drop, Error)]
pub enum RequiredFault {
    /// A word that is neither a flag, nor `!` and a flag, nor opens a group.
    #[error("no item at {at}")]
    Item { at: usize },
    /// The outermost group that is never closed, at its parenthesis.
    #[error("the group at {at} is not closed")]
    Open { at: usize },
    #[error("no group for the parenthesis at {at} to close")]
    Close { at: usize },
    #[error("a parenthesis without a space in the word at {at}")]
    NoSpace { at: usize },
    #[error("more than 64 groups are open")]
    Depth,
    #[error("out of memory")]
    Memory,
}
