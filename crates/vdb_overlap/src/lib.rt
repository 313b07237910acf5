//! Which paths of a list are in each other's way: two that are one, or one above another.
//!
//! **A contract sees** the index as what it knows of the list of paths that it was given.
//!
//! **Proved**: the first overlap is told exactly where there is one, by the first path in byte
//! order that stands twice, else by the first with a path below it and the first of those.
//!
//! **Only tested**: that with ample memory paths are taken and their first overlap told.
//!
//! ```
//! index.add(alloc, &path)?;
//! let overlap = index.first_overlap(alloc)?;
//! ```
#![tactic(auto)]

mod index;
mod overlap;

pub use index::PathIndex;
pub use overlap::Overlap;
