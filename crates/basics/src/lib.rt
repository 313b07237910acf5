//! What every crate of the workspace wants: a text with equality and order, tests on bytes, the
//! blanks, membership in a list by recursion, and the limit of the groups of a plan.
//!
//! **A contract sees** a [`Text`] as its bytes, `text.now`; membership, distinct lists and lists
//! that say the same are words of `specs/Members.antt`.
//!
//! **Proved**: a text is the bytes that it was made from, equal and ordered as they are; each test
//! on a byte is that of its set.
//!
//! **Only tested**: with ample memory a text is made.
//!
//! ```
//! let text = Text::new(alloc, "usr")?;
//! assert!(text.as_str() == "usr");
//! ```
#![tactic(auto)]

mod blanks;
mod bytes;
mod limits;
mod text;

pub use blanks::{CARRIAGE_RETURN, NEWLINE, SPACE, TAB, is_blank};
pub use bytes::{is_digit, is_lower};
pub use limits::MOST_GROUPS;
pub use text::Text;
