//! What a plan would do, as a table for a person at a terminal.
//!
//! **Proved**: whatever the plan holds, the table is lines that each begin with `emerge: `, have no
//! control character and end in a newline (`IsTold` of `emerge_why`).
//!
//! **Only tested**: what the table says.
//!
//! ```
//! let text = table_of(alloc, &plan, &opening)?;
//! ```
#![tactic(auto)]

mod flags;
mod rows;
mod table;

pub use table::table_of;
