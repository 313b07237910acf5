//! Packages that are installed side by side: states in line order, when packages are consistent,
//! and which fault is the first of those that aren't.
//!
//! **A contract sees** a [`Pkg`] as a record of its facts, its trees by class and its REQUIRED_USE,
//! and a [`State`] as a list of these.
//!
//! **Proved**: a state has its packages in line order, one a line, and a change of one line leaves
//! the others as they are; packages are consistent, or just one fault is their first, and
//! [`consistent`] tells which.
//!
//! **Only tested**, within whole runs: that with ample memory packages are judged.
//!
//! ```
//! let replaced = state.insert(alloc, package)?;
//! consistent(alloc, &packages)?;
//! ```
#![tactic(auto)]

mod around;
mod block;
mod blocks;
mod broken;
mod by_text;
mod class;
mod copies;
mod eapi;
mod judging;
mod laws;
mod leaf;
mod line;
mod package;
mod state;
mod twins;

pub use around::by_own_name;
pub use broken::Broken;
pub use by_text::ByText;
pub use class::Class;
pub use copies::{copy_facts, copy_package, facts_with, package_with};
pub use eapi::Eapi;
pub use judging::consistent;
pub use laws::{one_fault, one_state};
pub use leaf::copy_leaf;
pub use line::LineName;
pub use package::Pkg;
pub use state::State;
pub use twins::first_twins;
