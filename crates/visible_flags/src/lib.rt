//! The flags of a candidate: which are on, and which settings of them may be chosen instead.
//!
//! **A contract sees** flags as a set, and a setting as which flags it has on.
//!
//! **Proved**: the base setting has just the flags that the layers turn on or that are forced, none
//! that is masked, none that the candidate doesn't know but the implicit ones; the settings that may
//! be chosen are given whole and in their order.
//!
//! **Only tested**: that with ample memory they are given. Of n flags that may be flipped, k flips
//! give as many settings as there are lists of at most k of them, each of which is a copy of the set.
//!
//! ```
//! let base = base_flags(&iuse.flags, &iuse.on, &rules)?;
//! let settings = variants(alloc, &iuse.flags, &base, &rules, &required, 2)?;
//! ```
#![tactic(auto)]

mod base;
mod choosing;

pub use base::{FlagRules, base_flags};
pub use choosing::variants;
