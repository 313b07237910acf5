//! The words of the last line for a plan that is refused.
//!
//! The first word names the rule that the plan breaks. Behind it stand what the rule names, in an
//! order of its own: a line as `category/package:slot`, a package as `category/package-version`, a
//! group by its number (0 for what is there to begin with), a class as its variable is named, a
//! leaf as it is spelled, a bind as `slot/subslot`, and `-` where no leaf or no bind is named. The
//! groups that may come in between stand last, behind the word `groups`.
//!
//! **A contract sees** a refusal as `plan_rules` has it, and its words as a list
//! (`refusal_words` of `specs/Words.antt`).
//!
//! **Proved**: [`push_refusal`] puts just these words behind a text, each behind a space.
//!
//! **Only tested**: that with ample memory it answers.
//!
//! ```
//! let mut line = String::from_str(alloc, "emerge: PlanRefused:")?;
//! push_refusal(&mut line, alloc, &refused)?;
//! ```
#![tactic(auto)]

mod refusal;
mod words;

pub use refusal::push_refusal;
