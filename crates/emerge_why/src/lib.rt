//! Why a run was refused, and what to do next, in plain words for a person at a terminal.
//!
//! The last line of a run names a status in the words of its format. Here each status but Ok is told
//! in some lines of plain words: what is wrong, with what the status names, and what a person can do
//! about it.
//!
//! **A contract sees** the text as its bytes.
//!
//! **Proved**: whatever a word, a path or a line of a file holds, the text is lines that each begin
//! with `emerge: `, have no control character and end in a newline (`IsTold` of
//! `specs/Told.antt`). So what comes from outside can neither forge a line nor drive the terminal.
//!
//! **Only tested**: what the lines say.
//!
//! ```
//! let text = why_refused(alloc, &words, &status, None)?;
//! ```
#![tactic(auto)]

mod candidates;
mod dead;
mod files;
mod images;
mod limits;
mod numbers;
mod orders;
mod packages;
mod plans;
mod telling;
mod telling_host;
mod usage;
mod why;
mod words;

pub use telling::told;
pub use telling_host::{why_locked, why_unopened};
pub use why::why_refused;
