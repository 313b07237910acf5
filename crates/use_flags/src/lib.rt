//! Texts of USE flags: the items of IUSE, and changes of a set of flags.
//!
//! **A contract sees** a text as the words between its blanks, and a set as which flags it
//! has.
//!
//! **Proved**: a text with a word of another form is refused at the first such word, which is its
//! only fault; applying changes is going through them one by one, or changes nothing where memory
//! runs out.
//!
//! **Only tested**: that with ample memory each is read, and long texts in falling order. A text
//! of n words is read, and n changes are applied, in the time that n insertions into a set take.
//!
//! ```
//! let iuse = Iuse::parse(alloc, "+ssl -debug")?;
//! apply(&mut flags, changes(alloc, "-* X")?.as_slice())?;
//! ```
#![tactic(auto)]

mod change;
mod fault;
mod iuse;
mod laws;
mod words;

pub use change::{Change, apply, apply_one, changes, read_change};
pub use fault::UseFault;
pub use iuse::{Iuse, flag_of};
pub use laws::one_fault;
