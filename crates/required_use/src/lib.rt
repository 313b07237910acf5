//! REQUIRED_USE: which flags of a package go together (PMS 7.3.4).
//!
//! **A contract sees** an expression as the view of its items in groups, with whether an any-of or
//! exactly-one-of group without members holds (which an edition of the rules fixes, and no text
//! says), and flags as a set.
//!
//! **Proved**: a text is read exactly where it is an expression; any other text is refused with
//! its first fault, which is its only one; a printed expression is read back; the truth of an
//! expression over the flags that are on.
//!
//! **Only tested**: 64 groups inside one another, a text of 64 KB, and that with ample memory it
//! is read.
//!
//! ```
//! let required = RequiredUse::parse(alloc, "^^ ( gtk qt )", false)?;
//! let holds = required.holds(&flags);
//! ```
#![tactic(auto)]

mod copy;
mod fault;
mod parse;
mod print;
mod required;

pub use fault::RequiredFault;
pub use required::{Item, Required, RequiredUse, one_fault, printed_text_has_the_words};
