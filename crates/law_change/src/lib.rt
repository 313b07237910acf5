//! What a group makes of a tree's packages that brings any number of them and takes away any
//! number: laws, and no code.
//!
//! **A contract sees** the packages of a tree and the changes of groups as `vdb_law` does, the
//! files of packages as `merge_group` and `law_package` do.
//!
//! **Proved**: over a kept tree whose packages are the owners in the book, a group that a site was
//! granted, with the files of the packages that come, and which removes what those own that go,
//! does what its change says, and leaves a kept tree with the packages after it, which are the
//! owners then.
//!
//! **Only tested**: nothing, since a law has no body.
//!
//! ```
//! granted_exchanges_leave_owned_trees();
//! ```
#![tactic(auto)]

mod laws;

pub use laws::granted_exchanges_leave_owned_trees;
