//! The profile of a tree: the folders that it is made of, in the order in which they count, the lines
//! and the variables of their files, and how items of them stack.
//!
//! **A contract sees** a tree as its story, a profile as the list of its folders, a line file as the
//! list of its lines, and items as texts. `Reads` (`specs/Folders.antt`) is the rule for folders: a
//! profile's parents come before it, in the order of the lines of its file `parent`.
//!
//! **Proved**: the folders are exactly those of the tree's profile, in this order, where it has no
//! fault. Else the first fault is told with its file and line, and beside it the folders whose
//! profiles were read to their end before it. The lines of a line file, or of a folder of files, and
//! the variables of a folder are exactly those that count, or the first fault is told. An item stands
//! exactly where one text adds it and none behind that takes it back. The tree is only read.
//!
//! **Only tested**: that with ample memory a profile is found and its files are read.
//!
//! ```
//! let Walk { folders, end } = find_folders(alloc, &mut tree, &path);
//! end?;
//! let defaults = read_defaults(alloc, &mut tree, &folders[0], &[])?;
//! ```
#![tactic(auto)]

mod defaults;
mod fault;
mod folders;
mod law;
mod line_file;
mod parents;
mod place;
mod stack;
mod start;
mod text;

pub use defaults::read_defaults;
pub use fault::ProfileFault;
pub use folders::{MOST_PROFILES, Walk, find_folders};
pub use law::{last_word_counts, one_walk};
pub use line_file::{FileLine, read_lines};
pub use parents::Parent;
pub use stack::{stacked, taken_back, unsigned};
pub use text::{file_in, read_text};
