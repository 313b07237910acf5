//! How a run ends: its status, the number that a program ends with, and the lines that tell it.
//!
//! **A contract sees** a status as plain data, and a sink as the bytes that it took.
//!
//! **Proved**: the number and the last line of each status; the line of a group names just what went
//! and what came. Where the last line can't be written the status is the output's fault, but a
//! device's fault stays, and then some beginning of it stands there; where there is no memory for it
//! the status is want of memory, and its line says so. What comes from outside stands in a line with
//! each control character as `\xNN` ([`shown`]).
//!
//! **Only tested**, within whole runs: that with ample memory a line is made.
//!
//! ```
//! let line = line_of_group(alloc, &group, 1)?;
//! let status = finish(alloc, &mut out, Status::Ok { groups: 1 });
//! ```
#![tactic(auto)]

mod collision;
mod ending;
mod escapes;
mod faults;
mod status;
mod texts;

pub use collision::Collision;
pub use ending::finish;
pub use escapes::shown;
pub use status::{Part, Status};
pub use texts::line_of_group;
