//! The installed packages that a run begins with.
//!
//! **A contract sees** a tree as its story, an installed package as plain data, and flags as the list
//! of their texts.
//!
//! **Proved**: the packages of a tree are read exactly where it has a database, no two of its
//! packages are in each other's way, and they go together with the flags on that the run has on for
//! every package; else the first fault is told. A repair ([`read_repairable`]) lets them in where no
//! two stand on one line, whatever they lack; two on one line are refused. They come back as they are
//! recorded. The ownership book has them as the owners of what they recorded and of their own folders.
//!
//! **Only tested**, within whole runs: that with ample memory what a run begins with is read.
//!
//! ```
//! let opening = read_opening(alloc, &mut tree, &implicit)?;
//! ```
#![tactic(auto)]

mod fault;
mod judging;
mod lighting;
mod lines;
mod opened;
mod order;
mod owners;
mod reading;
mod repairing;

pub use fault::OpeningFault;
pub use lighting::lit;
pub use opened::Opening;
pub use reading::read_opening;
pub use repairing::read_repairable;
