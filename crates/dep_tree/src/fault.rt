use thiserror::Error;

/// Why a text is no dependency tree. A place is that of a word's first byte.
#[derive(Debug, Drop, Error)]
pub enum TreeTextFault {
    /// A word that is neither an atom nor opens a group.
    #[error("no atom at {at}")]
    Atom { at: usize },
    /// The outermost group that is never closed, at its parenthesis.
    #[error("the group at {at} is not closed")]
    Open { at: usize },
    #[error("no group for the parenthesis at {at} to close")]
    Close { at: usize },
    #[error("a parenthesis without a space in the word at {at}")]
    NoSpace { at: usize },
    /// At any depth inside an any-of group.
    #[error("the block at {at} stands in an any-of group")]
    BlockInAnyOf { at: usize },
    #[error("more than 64 groups are open")]
    Depth,
    #[error("out of memory")]
    Memory,
}
