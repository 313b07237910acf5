//! What stands once some groups of an accepted plan are committed, and what a crash leaves while
//! they are merged: laws, and no code.
//!
//! **A contract sees** plans as `plan_law` has them, trees with their databases and the changes of
//! groups as `vdb_law` does, and the machine of all groups as `merge_core` does.
//!
//! **Proved**: whichever groups of an accepted plan are committed to a kept tree, in whatever order
//! that the plan allows, they leave a kept tree with a database whose packages are consistent. Where
//! a group's claim is granted only while its change may come, over the settled groups and beside
//! those under way, whatever a crash leaves at any moment of the plan's merge, with its events in any
//! order and answered in any way, recovers to such a tree, with each settled group in it.
//!
//! **Only tested**: nothing, since a law has no body.
//!
//! ```
//! commits_leave_sound_trees();
//! ```
#![tactic(auto)]

mod laws;

pub use laws::{
    commits_leave_sound_trees, crashes_recover_soundly, good_claims_suffice, merges_recover_soundly,
};
