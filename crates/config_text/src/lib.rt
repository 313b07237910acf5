//! The texts of configuration files: lines, and assignments.
//!
//! **A contract sees** a text as its bytes, a line as its number and its bytes, and an assignment as
//! its line, its key and its value. A text of assignments is a list of blanks, comments and
//! assignments, a value a list of runs, and a run a list of parts (`specs/Values.antt`,
//! `specs/Assignments.antt`).
//!
//! **Proved**: the lines are exactly those that count, each with its number. The assignments are
//! exactly those that the text says, each value with what its variables stood for there; a text says
//! one list of them at most, and one that says none is refused for its first fault. A text that isn't
//! UTF-8 is refused at the line of its first bad byte.
//!
//! **Only tested**: with ample memory a text is read. A text of n bytes is read in a time that is
//! linear in n, and its variables are found in the logarithm of the number of keys.
//!
//! ```
//! for line in lines(alloc, bytes)? {
//!     println!("{}: {}", line.number, line.text.as_str());
//! }
//! for assignment in assignments(alloc, bytes, &[])? {
//!     println!("{}={}", assignment.key.as_str(), assignment.value.as_str());
//! }
//! ```
#![tactic(auto)]

mod assignment;
mod fault;
mod head;
mod known;
mod law;
mod line;
mod part;
mod stretch;
mod utf8;
mod value;

pub use assignment::{Assignment, assignments};
pub use fault::TextFault;
pub use law::one_reading;
pub use line::{Line, lines, pieces};
pub use utf8::{line_number, text_of};
