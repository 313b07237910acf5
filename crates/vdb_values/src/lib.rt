//! The values of a record's files: SLOT, EAPI, USE, IUSE and the five classes of dependencies.
//!
//! **A contract sees** a text as its words.
//!
//! **Proved**: a text of EAPI, and one of SLOT, is read exactly where it says something that is read; a text of flags is
//! read exactly where each word is one, as just that set, and else refused at its first bad word; a
//! text of dependencies is read as its tree without the equals operators that are bound to nothing.
//!
//! **Only tested**: that with ample memory each is read.
//!
//! ```
//! let slots = read_slots(alloc, " 0/2\n")?;
//! ```
#![tactic(auto)]

mod fault;
mod flags;
mod needs;
mod single;

pub use fault::FlagFault;
pub use flags::{read_flags, read_known};
pub use needs::read_needs;
pub use single::{read_eapi, read_slots};
