//! The changes of a command, line by line, and which of them wait for which.
//!
//! A choice changes a line where a variant comes or where what is installed goes. The change of one
//! line waits for that of another for one of four reasons (`specs/Waits.antt`): what comes needs
//! the other line for its build, in a class that doesn't hold over what is installed, or it needs
//! that line at run time; the change alone would break something that is installed; or what comes
//! can't stand beside what is still on the other line. It *builds* on the other line in the first
//! case, and in the last where it is barred: by a strong block, or by any block of its build.
//!
//! **A contract sees** a universe and a choice as `choice_tree` has them, a change as its line with
//! what goes and what comes, and edges as `merge_graph` has them: a node is a place among the
//! changes.
//!
//! **Proved**: [`changes_of`] lists just the lines that change, in line order; [`edges_of`] has an
//! edge from one change to another just where the first waits for the second, and one that builds
//! just where it builds on it (`AreEdges` of `specs/Edges.antt`).
//!
//! **Not proved**, nor tested yet: that with ample memory it answers.
//!
//! Each line and each leaf is gone through once, and what an atom may match is looked up by its name;
//! a package whose needs a change may break is judged anew for each changed line that it needs. What
//! is decided of a line is sought among the decisions.
//!
//! ```
//! let changes = changes_of(alloc, &universe, &choice)?;
//! let edges = edges_of(alloc, &universe, &choice)?;
//! let numbering = number(alloc, changes.len(), &edges)?;
//! ```
#![tactic(auto)]

mod alone;
mod apart;
mod breaking;
mod change;
mod coming;
mod joining;
mod listing;
mod needs;
mod nodes;
mod places;
mod stander;

pub use change::Change;
pub use joining::edges_of;
pub use listing::changes_of;
