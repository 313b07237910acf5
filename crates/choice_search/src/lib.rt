//! The first good leaf of a tree that is known by the options of each of its choices, found by a
//! search that jumps back.
//!
//! A choice where nothing is open is a good leaf; one where something is, and that has no option,
//! is a dead leaf; any other has its options below it, in their order. A choice decides lines, and
//! that something is open of it rests on some of these, its reason.
//!
//! Where an option has no good leaf below it, the search has a cause for that: a list of lines. A
//! choice that knows the whole cause has none either, and its other options aren't tried. Else its
//! next option is; when none is left, its own cause is its reason and what it knows of the causes of
//! its options.
//!
//! **A contract sees** a tree by its [shape](Tree): functions from a choice to its options, its
//! reason, and the lines that it decides. `visit` is what the walk through it meets and ends with,
//! and `leaves` are all of its leaves, in their order.
//!
//! **Proved**: [`first_good`] ends with what `visit` says: the good leaf at its end, that there is
//! none, with all dead leaves that are met, or, where as many as it is allowed are met, just these. By the law
//! [`jumps_lose_nothing`] that is the first good leaf of all, and what is met are dead leaves before
//! it, wherever the reasons are reasons for the solutions of what the choices decide.
//!
//! **Only tested**: that with ample memory it ends with one of these.
//!
//! ```
//! match first_good(alloc, &mut tree, 10)? {
//!     Outcome::Found(choice) => ..,
//!     Outcome::NoneGood(dead) => ..,
//!     Outcome::Limit(dead) => ..,
//! }
//! ```
#![tactic(auto)]

mod back;
mod deciding;
mod frame;
mod laws;
mod outcome;
mod search;
mod tree;

pub use deciding::Deciding;
pub use laws::{depth_is_of_no_account, jumps_lose_nothing};
pub use outcome::Outcome;
pub use search::first_good;
pub use tree::Tree;
