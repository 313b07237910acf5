//! Dependencies of packages: atoms in groups (PMS 8.2).
//!
//! **A contract sees** a tree as the view of its atoms in groups, with whether an any-of group
//! without members holds (which an edition of the rules fixes, and no text says), and the packages
//! that are there as a list of facts.
//!
//! **Proved**: a text is read exactly where it is a dependency tree; any other text is refused
//! with its first fault, which is its only one; a printed tree is read back; the truth of a tree
//! over the packages that are there, and its leaves that count.
//!
//! **Only tested**: 64 groups inside one another, a text of 64 KB, and that with ample memory it
//! is read.
//!
//! ```
//! let tree = DepTree::parse(alloc, "|| ( c/d x? ( c/e ) )", false)?;
//! let holds = tree.holds(&packages, &flags);
//! ```
#![tactic(auto)]

mod copy;
mod fault;
mod parse;
mod present;
mod print;
mod tree;

pub use fault::TreeTextFault;
pub use present::Present;
pub use tree::{
    DepTree, Node, has_member, is_block, is_member, one_fault, printed_text_has_the_words,
    trees_in_form_are_atoms_in_groups,
};
