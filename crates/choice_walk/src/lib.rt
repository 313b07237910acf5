//! A walk through the tree of choices, and what is open of each.
//!
//! **A contract sees** a universe, a choice and an obligation as `choice_tree` and `choice_law`
//! have them, and a [`Walk`] as the choice where it is and those above it (`here` and `above` of
//! `specs/Way.antt`).
//!
//! **Proved**: [`first_open`] tells the first obligation that is open, in the order of
//! `choice_tree`, and none where nothing is open. [`options`] gives the options for it in their
//! order, and [`next_reason`] the decided lines on which it rests that this is open. A walk goes on
//! to just the option of a step, and back to just where it came from, and tells the same of each
//! choice; of a hopeless one it tells no option.
//!
//! **Only tested**: whole trees of small universes, written out by hand, and that with ample memory
//! each call answers.
//!
//! A [`Walk`] is at a choice, goes on to an option by a `Step`, and goes back. It keeps what it
//! knows of the lines, and makes anew only those of which something else is decided. The lines that
//! may have something open are a set; one of whose package nothing is open leaves it, and comes
//! back only where a package that it names, or one of its text, has come or gone (`AreSettled` of
//! `specs/Settled.antt`). What meets a need, what serves it, and what may conflict is found by its
//! name or its text among the lines that may have such a package; only where a conflict may be is
//! each two of the lines looked at.
//!
//! ```
//! let choice = Choice::new(alloc);
//! if let Some(obligation) = first_open(alloc, &universe, &choice)? {
//!     let next = options(alloc, &universe, &choice, &obligation)?;
//! }
//! ```
#![tactic(auto)]

mod blame;
mod branching;
mod marks;
mod places;
mod possible;
mod reasons;
mod settling;
mod taking_up;
mod trail;
mod turn;
mod turning;
mod walk;

pub use branching::options;
pub use reasons::next_reason;
pub use taking_up::first_open;
pub use walk::Walk;
