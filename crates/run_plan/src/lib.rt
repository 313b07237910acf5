//! The groups of an accepted plan merged one after another into a tree at rest, through one site:
//! each one's images are built when its turn comes, the packages that its removals name go, and
//! those that it adds come.
//!
//! **A contract sees** the tree as its story, a plan as `plan_law` does, what is made of its groups
//! as `run_turns` does, and what a crash leaves by the groups that `merge_group` speaks of. What a run
//! promises is one record, `MergesPlan` (`specs/Merges.antt`).
//!
//! **Proved**: each group's images are what builders of the pool tell for its orders, and its turn is
//! made of the plan, over what those before it left; the groups come in their order, and the first
//! that is stopped ends the run. What a crash leaves at any moment recovers to the tree from before
//! with a run of the plan applied; at the end to that with just the history, unless the device
//! failed. What was written are the lines of the acknowledged groups and a beginning of the
//! next. A stop for the device, the output or a builder comes only where its count of faults rose.
//!
//! **Only tested**, within whole runs: that with ample memory all groups of a plan are merged.
//!
//! ```
//! let merged = merge_plan(alloc, tree, sink, &mut pool, &installed, &plan, task);
//! ```
#![tactic(auto)]

mod closing;
mod merge;
mod newcomers;
mod preparing;
mod stop;
mod turns;

pub use merge::{Merged, Task, merge_plan};
pub use stop::PlanStop;
