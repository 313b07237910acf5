//! The installed packages of a tree, when the tree keeps what they recorded, and what groups make
//! of both: laws, and no code.
//!
//! **A contract sees** a tree as a map from paths to objects, a package as `pkg_state` has it with
//! the paths that it recorded, and a group as the journal does.
//!
//! **Proved**: a group that is a fitting step takes a kept tree with a database to a kept tree with
//! the database after it, and so does any number of them.
//!
//! **Only tested**: nothing, since a law has no body.
//!
//! ```
//! groups_keep_the_database();
//! ```
#![tactic(auto)]

mod laws;

pub use laws::groups_keep_the_database;
