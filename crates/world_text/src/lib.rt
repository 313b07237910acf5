//! The world file: what the user wants installed, an atom a line.
//!
//! Blank lines and lines whose first byte is `#` say nothing. Each other line is one atom without a
//! block, with blanks around it at most.
//!
//! **A contract sees** the text as its bytes and an atom as `dep_atom` has it.
//!
//! **Proved**: [`read_world`] answers with the atoms of the lines, in their order, exactly where the
//! text is UTF-8 and each line that counts is one (`IsWorld` of `specs/World.antt`); else it tells
//! that it isn't UTF-8, or the first line that is none (`IsFaulty`), unless memory runs out.
//!
//! **Only tested**: that with ample memory it answers.
//!
//! ```
//! let atoms = read_world(alloc, b"# kept by hand\nsys-apps/coreutils\n")?;
//! ```
#![tactic(auto)]

mod fault;
mod world;

pub use fault::WorldFault;
pub use world::{WORLD, read_world};
