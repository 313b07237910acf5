//! A tree and a sink in memory, whose failures are listed.
//!
//! **A contract sees** a [`MemTree`] as its story (`mem_story`), its counts of calls and failures,
//! and which calls are to fail; a [`MemSink`] as the bytes that it took. The tree keeps a record
//! of all its calls, so it tells what each path held and which paths were touched at every moment.
//!
//! **Proved**: both meet [`Tree`](file_tree::Tree) and [`Sink`](file_tree::Sink), fail exactly at
//! the calls that were listed and where a growth is refused, and count their calls and failures;
//! a crash image of a tree is the one that its choice names.
//!
//! **Only tested**: with ample memory no growth is refused.
//!
//! ```
//! let mut tree = MemTree::new(alloc, objects)?;
//! tree.stop_at(25);
//! ```
#![tactic(auto)]

mod calls;
mod choosing;
mod disk;
mod fault;
mod items;
mod record;
mod sink;
mod sorting;
mod tree;

pub use fault::{ImageFault, MemFault};
pub use sink::MemSink;
pub use tree::MemTree;
