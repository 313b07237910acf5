//! The tree of files that a merge changes, as a disk that may stop at any moment.
//!
//! **A contract sees** a [`Path`] as its bytes and an [`Object`] as its kind and its bytes. A tree
//! is seen as its `story`: what each path reads as and which paths are touched, now and at each
//! earlier moment. A crate above says "a crash at any moment since this call began leaves what has
//! P" as `Since P` of the two stories. `CountsFault` says that a count of faults never falls, and
//! that it rose where the call failed.
//!
//! **Proved**: a text is a path exactly on its grammar, and its fault is the first. What each call
//! of a [`Tree`] and of a [`Sink`] does is a promise that whoever implements them proves.
//!
//! **Only tested**: with ample memory a path is read and an object copied.
//!
//! ```
//! let path = Path::parse(alloc, "usr/bin/p")?;
//! tree.put(&path, &object)?;
//! tree.sync()?;
//! ```
#![tactic(auto)]

mod fault;
mod fixed;
mod limits;
mod objects;
mod paths;
mod taken;
mod traits;

pub use fault::{Failed, PathFault, TreeFault};
pub use fixed::{DATABASE, JOBS, OWN_FILES};
pub use limits::{MOST_PATH_BYTES, Quantity};
pub use objects::{Entry, Kind, Look, Object};
pub use paths::{Path, is_below, path_from};
pub use taken::TakenPaths;
pub use traits::{Sink, Tree};
