//! The dead ends of a search for what to install, told by packages.
//!
//! The search tells the choices that it tried in vain by lines and values of its universe. Here each
//! of the first ten is told as a person can read it: which packages come, go or stay by its decisions,
//! and what is first open of it.
//!
//! **A contract sees** a universe, a choice and an obligation as `choice_law` and `choice_tree` have
//! them.
//!
//! **Proved**: [`dead_ends`] tells just the first ten of the choices, in their order. Of each it tells
//! the package of every decision and what becomes of it, the newest first, and what is first open, by
//! the packages that stand there: which wanted atom, whose flags, which two packages, or which leaf of
//! whose dependencies, and whether any package that is offered would match it (`IsDeadEnd` of
//! `specs/Ends.antt`).
//!
//! **Only tested**: that with ample memory it answers.
//!
//! ```
//! let dead = dead_ends(alloc, &universe, &refuted)?;
//! ```
#![tactic(auto)]

mod ends;
mod needs;
mod picks;
mod standing;
mod telling;

pub use ends::{DeadEnd, Fate, Lack, Pick};
pub use telling::dead_ends;
