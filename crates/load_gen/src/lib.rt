//! The generated system of a load: a large and valid system that comes of a number alone, by which
//! the whole program is measured and tested.
//!
//! **A contract sees** a number of packages, and texts and objects that are functions of it
//! (`specs/Loads.antt`): package `i` is `load/p<i>-1`. It needs the package of half its number to
//! run, and the first needs the second; each tenth is built with the package of a tenth of its number.
//!
//! **Proved**: [`load_tree`] holds just the profile, and of each package its ebuild and its entry in
//! the cache; [`load_atoms`] name the packages in order; a [`LoadBuilder`] tells the image of each
//! package, one file with its number, and never fails.
//!
//! **Only tested**: with ample memory all are made, and what is merged of them.
//!
//! ```
//! let tree = load_tree(alloc, 1_000)?;
//! let builders = numbered_builders(alloc, 4, |id| Ok(LoadBuilder::new(alloc, id)))?;
//! ```
#![tactic(auto)]

mod atoms;
mod builder;
mod entries;
mod tree;

pub use atoms::load_atoms;
pub use builder::LoadBuilder;
pub use tree::load_tree;
