//! The universe of a command: what is installed and what may come, line by line.
//!
//! **A contract sees** packages as `pkg_state` has them, candidates as the list of all their
//! variants, and the offers of a universe as those of `choice_law`.
//!
//! **Proved**: [`make_universe`] has an offer for just the lines on which a package is installed or
//! a variant stands, in line order, each line once; an offer has what is installed on its line, and
//! the variants that stand there in the order in which they were handed in.
//!
//! **Only tested**: that with ample memory it answers.
//!
//! Its time grows as n times the logarithm of n, over the installed packages and the variants.
//!
//! ```
//! let universe = make_universe(alloc, &installed, candidates, wanted, false)?;
//! let choice = resolve(alloc, &universe, 10)?;
//! ```
#![tactic(auto)]

mod candidate;
mod filling;
mod making;

pub use candidate::Candidate;
pub use making::make_universe;
