//! CONTENTS: what an installed package recorded of the paths that it owns.
//!
//! **A contract sees** the text as its lines, each of a file, a link or a folder, and what they say
//! as a list of owned paths.
//!
//! **Proved**: a text is read exactly where each of its lines is one and none owns a path that an
//! earlier one owns, as just the list that it tells; any other text is refused with its first
//! faulty line. What is written is read back.
//!
//! **Only tested**: that with ample memory a text is read, and odd but right lines.
//!
//! ```
//! let owned = read_contents(alloc, b"obj /bin/a 0cc175b9c0f1b6a831c399e269772661 0\n")?;
//! ```
#![tactic(auto)]

mod cuts;
mod dropped;
mod fault;
mod laws;
mod line;
mod owned;
mod reading;

pub use fault::ContentsFault;
pub use laws::contents_are_read_back;
pub use owned::{Content, Owned};
pub use reading::read_contents;
