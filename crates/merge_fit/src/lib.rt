//! What may be put at a path of a tree, and which objects may be placed.
//!
//! **A contract sees** an entry as its path and its object, and the tree as what each path holds.
//!
//! **Proved**: an object is good exactly where it is a file that isn't too large, or a link whose
//! target is in form. `block_of` tells exactly the shortest path that keeps an object from being
//! put at a path: one above it that holds an object, or the path itself. It leaves the tree as it
//! is, and looks once for each part of the path.
//!
//! **Only tested**: that with ample memory a path is judged.
//!
//! ```
//! let block = block_of(alloc, &mut tree, &entry.path, false)?;
//! ```
#![tactic(auto)]

mod above;
mod blocks;
mod fault;
mod objects;

pub use blocks::block_of;
pub use fault::ImageBad;
pub use objects::{bad_by, is_good};
