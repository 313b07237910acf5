//! The grammar of versions (PMS 3.2), stated once for package names and for versions: the parts of
//! a version, how they are spelled, and which texts are versions.
//!
//! **A contract sees** a version as its parts and a text as their spelling. Limits on lengths are
//! not part of the grammar.
//!
//! **Proved**: [`is_version`] knows the texts of versions exactly, [`version_stop`] gives the byte
//! at which a text stops beginning any version, a version is spelled in one way, and a name and a
//! version joined by a hyphen come apart in one way.
//!
//! **Only tested**: texts from outside, beside the grammar.
//!
//! ```
//! assert!(is_version(b"1.2_rc3-r4"));
//! ```
#![tactic(auto)]

mod place;
mod recognise;

pub use recognise::{is_version, one_name_and_version, one_spelling, version_stop};
