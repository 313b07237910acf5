//! The text of a plan of groups: read, printed, and its first fault.
//!
//! The first line is `plan 1`. Groups follow, numbered from 1 without gaps. A group is the line
//! `group <n>`, perhaps a line `after <n> <n> ..` of earlier groups in rising order, then lines
//! `remove <category>/<package>-<version>:<slot>`, then lines
//! `add <category>/<package>-<version>:<slot>/<subslot> <flag> ..`, each with its lines
//! `bind <slot>/<subslot>` behind it. It removes or adds something. The lines of each of these two
//! kinds, and the flags of one line, rise in byte order. Numbers are decimal, from 1 to
//! 4,294,967,295, without a leading zero. One space parts two words, and a newline ends each line.
//!
//! **A contract sees** a plan as the list of its groups (`plan_value` of `specs/Plans.antt`), and
//! its one text as `plan_text` of `specs/Texts.antt`, where `IsPlan` says which plans are in form.
//! What comes with a group is a list of orders, as a builder takes them.
//!
//! **Proved**: a text is read as a plan exactly where it is the text of that plan, and the plan is
//! in form; what is printed is the plan's text, in form or not; no two plans in form have one text.
//! But for want of memory a text is refused at its first faulty line (`IsFaulty` of
//! `specs/Faults.antt`), and for a group too many only where 4,096 have begun.
//!
//! **Only tested**: which of the other faults of that line is told; that with ample memory the text
//! of a plan is read.
//!
//! A text of n bytes is read in a time that is linear in n.
//!
//! ```
//! let plan = Plan::parse(alloc, "plan 1\ngroup 1\nremove c/p-1:0\n")?;
//! let text = plan.print(alloc)?;
//! ```
#![tactic(auto)]

mod draft;
mod fault;
mod faulty;
mod flags;
mod kind;
mod laws;
mod line;
mod number;
mod parse;
mod plan;
mod print;
mod standing;
mod words;

pub use fault::PlanTextFault;
pub use laws::one_plan;
pub use plan::{Group, Plan, Removal};
pub use print::push_flags;
