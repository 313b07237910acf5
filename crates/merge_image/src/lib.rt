//! The image of a package, taken from one of the builders of a pool.
//!
//! **A contract sees** the pool as `build_pool` does, and an image as the list of its entries.
//!
//! **Proved**: an image is the one that a builder which rested tells for the order; it isn't taken
//! where it has too many entries. The builder comes back to its pool, and tells what it told; a
//! failed one made the pool's count of faults rise.
//!
//! **Only tested**, within whole runs: that with ample memory an image is taken.
//!
//! ```
//! let image = built_image(alloc, &mut pool, &order)?;
//! ```
#![tactic(auto)]

mod images;
mod limits;

pub use images::{ImageStop, built_image};
pub use limits::MOST_ENTRIES;
