//! What a plan of groups is, when it is sound, and when it is accepted: laws, and no code.
//!
//! **A contract sees** a plan as a list of groups, each with the groups that it waits for, the
//! packages that it takes away and those that it brings, and packages as `pkg_state` has them.
//!
//! **Proved**: a plan that is accepted is sound. In whatever order its groups are committed, and
//! wherever that stops, the packages are consistent; whenever a group may come, what its packages
//! want for their build is there; and at the end they have all that they want.
//!
//! **Only tested**: nothing, since a law has no body.
//!
//! ```
//! accepted_plans_are_sound();
//! ```
#![tactic(auto)]

mod laws;

pub use laws::accepted_plans_are_sound;
