//! What a group that places files puts at each path, and what is recorded of a package that comes:
//! definitions and lemmas, and no code.
//!
//! **A contract sees** a package and its tree's database as `vdb_law` does, and the files of a
//! package as `merge_group` does.
//!
//! **Proved**: a group of files at different paths puts each object at its path and nothing else; a
//! group that comes again changes nothing; and what is recorded of an image has its paths, and
//! holds of its objects.
//!
//! **Only tested**: nothing, since there is no code; so there is no call to show.
#![tactic(auto)]
