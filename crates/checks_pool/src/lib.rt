//! Tests of the pool of builders, and that pools and sites may go from thread to thread.
//!
//! No run calls anything of it. The tests stand here and not beside what they test, since a crate
//! with tests is proved twice.
//!
//! **A contract sees** pools and sites as `build_pool` and `merge_site` have them.
//!
//! **Proved**: of pools that are handed to threads each has just the builders that were counted,
//! and of sites just those are stopped that were found so.
//!
//! **Only tested**: with ample memory a pool is made, lends each of its builders, and counts the
//! faults of one that is back, or was dropped.
//!
//! ```
//! count_builders(rt, &mut lanes);
//! ```
#![tactic(auto)]

mod lanes;
#[cfg(test)]
mod pool;
mod sites;

pub use lanes::{Lane, count_builders};
pub use sites::{Watch, watch_sites};
