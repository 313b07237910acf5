//! The variables of the configuration, as they stack over the files in which they are set: those of
//! the profile, each `make.defaults`, and then make.conf.
//!
//! **A contract sees** a file as its path and its assignments, and a variable's value as the words
//! between its blanks. What counts in one file is a variable's last assignment (`specs/Values.antt`).
//!
//! **Proved**: the value of a variable that is replaced is its last one. The words of a variable that
//! stacks are those that the files behind the last `-*` add and don't take away again. The expanded
//! variables are those that USE_EXPAND names over all files. Values are refused exactly where a
//! word of one is none that its variable may have, at the first such line of the first such file.
//!
//! **Only tested**: with ample memory each call gives its answer. A variable is looked for in a time
//! that is linear in the number of assignments, and so are the words of its values, but that each word
//! that is taken away is looked for among those that stand.
//!
//! ```
//! judge(alloc, &files)?;
//! let arch = last_value(&files, "ARCH");
//! let flags = stacked(alloc, &files, "USE")?;
//! ```
#![tactic(auto)]

mod fault;
mod grammar;
mod law;
mod stack;
mod vars;
mod verdict;

pub use fault::VarFault;
pub use law::last_word_counts;
pub use stack::{expanded, flag_of, stacked};
pub use vars::{FileVars, last_value, value_in};
pub use verdict::judge;
