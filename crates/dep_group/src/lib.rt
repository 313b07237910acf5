//! What the grammars of dependency specifications and of REQUIRED_USE share: the words of a text
//! with their places, what a word is to a text of groups, and trees of groups over leaves of any
//! kind: their truth, their printed words, and the reading of such words.
//!
//! **A contract sees** a text as its words, and trees over any kind of leaf.
//!
//! **Proved**: of each kind of text (a [`Node`]) a text is read exactly where it writes trees in
//! form, and any other text is refused with its first fault, which is said in terms of words and
//! trees alone (`specs/Faults.antt`). The printed words of a tree read as that tree, and what reads
//! as a tree are the tree's printed words.
//!
//! **Only tested**: the shapes of words, and where they stand.
//!
//! ```
//! let words = words(alloc, text)?;
//! let trees = read_text(alloc, text)?;
//! ```
#![tactic(auto)]

mod law;
mod print;
mod reader;
mod shape;
mod text;
mod token;
mod word;

pub use law::{printed_trees_are_read, read_trees_are_printed, replaced_tokens_are_read_alike};
pub use print::{push_condition, push_word};
pub use reader::Node;
pub use shape::{Shape, flag_of, shape_of};
pub use text::{flag, read_text};
pub use token::{GroupFault, Opener, Token};
pub use word::{Word, place, words};
