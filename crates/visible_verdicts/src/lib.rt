//! The candidates of the repository: the packages of which its cache has an entry, those that are
//! visible, and for the others the first reason why they aren't.
//!
//! **A contract sees** [`VisibleRules`] as the lists of masks and unmasks and the rules of
//! keywords, a candidate as its id, and what is told of it as its entry or its reason. The tree is
//! seen as what its paths hold.
//!
//! **Proved**: [`judge`] answers a visible candidate with what its entry tells, and any other with
//! the first of the reasons in their order, of which it has one. Of a tree that tells what it
//! holds, [`candidates`] gives just the packages of which the cache has an entry that is no link,
//! each judged by the texts at the paths of its entry and its ebuild, in the order of their names,
//! greater versions first. The tree is only read.
//!
//! **Only tested**: that with ample memory a repository is read.
//!
//! n entries are read in a time that grows as n times its logarithm, and as the masks and the lines
//! of keywords on their names.
//!
//! ```
//! let rules = VisibleRules { masks, unmasks, keywords };
//! let found = candidates(alloc, &mut tree, &rules)?;
//! ```
#![tactic(auto)]

mod judging;
mod law;
mod place;
mod ranking;
mod reading;
mod reason;
mod rules;
mod verdict;

pub use judging::judge;
pub use law::one_verdict;
pub use reading::candidates;
pub use reason::{Reason, Refusal};
pub use rules::VisibleRules;
pub use verdict::{Candidates, Hidden};
