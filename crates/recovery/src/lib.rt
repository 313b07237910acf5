//! Recovery of a tree whose last run stopped at any moment.
//!
//! **A contract sees** the tree as its story, what recovery makes of a map that it takes as
//! `RecoversTo`, and which fault is one of the map as `IsFaultOf`.
//!
//! **Proved**: the open groups of the journal, however many, are applied in the order of their
//! numbers, and a crash at any moment of this leaves what recovery makes the same tree of. A
//! journal is refused exactly where an open group isn't in form or too many gates hold an object;
//! the tree then reads the same as before, and may have been synced.
//!
//! **Only tested**: that with ample memory a tree is recovered, and, within whole runs, that the
//! journal is cleared.
//!
//! ```
//! recover(alloc, &mut tree)?;
//! clear_journal(alloc, &mut tree)?;
//! ```
#![tactic(auto)]

mod changes;
mod clearing;
mod fault;
mod finding;
mod limits;
mod paths;
mod redoing;
mod run;

pub use clearing::clear_journal;
pub use fault::RecoverFault;
pub use limits::MOST_GATES;
pub use run::{Recovered, recover};
