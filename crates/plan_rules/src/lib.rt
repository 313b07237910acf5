//! Why a plan of groups is refused, and the rules of its check that are tried over the whole plan.
//!
//! These are tried in their order: of two groups that change one line, one waits for the other; what
//! is removed stands on its line just before; nothing is in the way of an addition: what stands on its
//! line goes in the same group, which brings nothing else to the line, and its version isn't there on
//! another line at one time; the packages are consistent to begin with. `plan_check` goes on package
//! by package.
//!
//! **A contract sees** a refusal as plain data ([`PlanRefused`] with its `told`), and a rule as the
//! set of its verdicts: none, or the refusal (`specs/Verdicts.antt`).
//!
//! **Proved**: each of these answers the verdict that its rule gives (`specs/Rules.antt`), but for
//! want of memory: with the first package that breaks it, group by group and in a group by the lines
//! (`specs/Order.antt`), and with the group or the first other package that the rule names; of several
//! groups in disorder the first two by their line and then by their numbers.
//!
//! **Only tested**: that with ample memory an answer comes, by the tests of `plan_check`.
//!
//! They take time in n log n: a rule looks at the lives of one line or of one name, and goes through
//! all packages, or each two changes of a line, only where it is about to refuse.
//!
//! ```
//! judge_lines(alloc, index.reach)?;
//! judge_present(alloc, &index)?;
//! ```
#![tactic(auto)]

mod change;
mod hindrance;
mod line_order;
mod meeting;
mod opening;
mod order;
mod presence;
mod refusal;
mod room;

pub use line_order::in_line_order;
pub use meeting::{meets, number_of, stretch_of};
pub use opening::judge_opening;
pub use order::judge_lines;
pub use presence::judge_present;
pub use refusal::PlanRefused;
pub use room::judge_room;
