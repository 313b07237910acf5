//! The builders of a run, and the pool that lends them.
//!
//! **A contract sees** a [`Builder`] by its number, its count of faults and the image that it
//! tells for each order; an [`Order`] as its package with its slots, the flags that are on and what
//! its equals operators are bound to, so that orders of the same contents are one; a [`BuildPool`]
//! as the builders at rest and, of each that is lent or was dropped, its number and how often it had
//! failed then.
//!
//! **Proved**: the builders at rest, lent and dropped are, each once, those handed in; the count of
//! faults is the sum over all of them; a builder that is lent was at rest, and counts, once it is
//! back or dropped, in place of what was remembered last under its number; builders that are made
//! for a run are known by different numbers; a copy of an order is that order. What a builder
//! answers is a promise that whoever implements [`Builder`] proves.
//!
//! **Only tested**: with ample memory a pool is made.
//!
//! ```
//! let mut pool = BuildPool::new(alloc, builders)?;
//! let Some(builder) = pool.lend() else { return Ok(()) };
//! pool.take_back(builder);
//! ```
#![tactic(auto)]

mod binds;
mod builders;
mod numbered;
mod orders;
mod pools;

pub use binds::Binds;
pub use builders::{BuildStop, Builder};
pub use numbered::numbered_builders;
pub use orders::Order;
pub use pools::{Away, BuildPool};
