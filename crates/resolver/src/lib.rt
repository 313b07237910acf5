//! What to install: the first good leaf of the tree of choices, or why there is none.
//!
//! **A contract sees** a universe and a choice as `choice_tree` and `choice_law` have them, and the
//! tree of choices as the whole list of its leaves, in the order in which they are tried.
//!
//! **Proved**: [`resolve`] answers with the first good leaf, which is a solution with the lines
//! that it doesn't decide as they are; it says that there is no solution only where there is none,
//! and tells all tries of the search, which are the hopeless choices and the dead leaves that it met;
//! and it gives up exactly where as many of them as are allowed are met before a good leaf, and tells
//! these.
//!
//! **Only tested**: that with ample memory it answers with one of these.
//!
//! ```
//! let choice = resolve(alloc, &universe, 10)?;
//! ```
#![tactic(auto)]

mod fault;
mod form;
mod resolving;
mod tree;

pub use fault::ResolveFault;
pub use resolving::resolve;
