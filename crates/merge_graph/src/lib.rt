//! Changes that wait for each other: which of them come together, and in which order they come.
//!
//! **A contract sees** nodes by their numbers from 0 on, and edges as a list; a node is *reached*
//! along any number of edges (`specs/Edges.antt`). Nodes that are reached from each other are a
//! *component*.
//!
//! **Proved**: that a component has an edge to build on inside is told exactly where one has, and of
//! which component; else each node has the number of its component, and components have theirs in
//! the order in which they may come, of several each time the one with the smallest node
//! (`specs/Numbering.antt`); what each component waits for; the lowest levels, and that they have no
//! gaps. Laws say that numbers and levels are the only ones (`specs/Laws.antt`).
//!
//! **Only tested**: with ample memory each call has an answer; the time that one takes.
//!
//! ```
//! let edges = [Edge { from: 0, to: 1, builds: false }];
//! match number(alloc, 2, &edges)? {
//!     Numbering::Numbers { numbers, count } => after(alloc, &numbers, count, &edges),
//!     Numbering::BuildCycle(nodes) => ..
//! }
//! ```
#![tactic(auto)]

mod certify;
mod checks;
mod closure;
mod components;
mod cycle;
mod edge;
mod giving;
mod laws;
mod leveling;
mod numbering;
mod ordering;
mod places;
mod slots;
mod sweep;
#[cfg(test)]
mod tests;
mod waiting;
mod ways;

pub use edge::Edge;
pub use laws::{levels_are_one, numbers_are_one, waits_fall};
pub use leveling::{level_rows, levels};
pub use numbering::{Numbering, are_between, number};
pub use places::rows;
pub use waiting::after;
