//! What the ownership book's claims say of packages: laws, and no code.
//!
//! **A contract sees** the book as `owner_book` has it, and the changes of groups, the packages of a
//! tree and good claims as `vdb_law` and `law_commit` do.
//!
//! **Proved**: where the book's owners are those of a tree's packages, and a group wishes and removes
//! what its change brings and takes away, a claim that the book takes is a good one: the change may
//! come now, and has nothing to do with the groups whose claims were taken before. Once a claim is
//! settled, the book's owners are the packages of the tree with its group. And whatever claims come
//! and go, each owner of a claimed path goes with the group that claims it, and no path that is owned
//! or to be placed is above or below another one.
//!
//! **Only tested**: nothing, since a law has no body.
//!
//! ```
//! granted_claims_are_good();
//! ```
#![tactic(auto)]

mod laws;

pub use laws::{
    books_stay_tidy, granted_claims_are_good, granted_lines_are_apart, settled_owners_are,
};
