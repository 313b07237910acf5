//! What a run begins with, and what it keeps of a disk: definitions and lemmas, and no code.
//!
//! **A contract sees** packages and a tree's database as `pkg_state` and `vdb_law` do, and the
//! ownership book as `owner_book` does.
//!
//! **Proved**: a tree at rest recovers to itself.
//!
//! **Only tested**: nothing, since there is no code; so there is no call to show.
#![tactic(auto)]
