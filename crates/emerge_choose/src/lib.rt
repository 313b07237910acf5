//! What a command is to do: the plan of the first good choice, linked and checked.
//!
//! The universe of a command has what is installed and the variants of all visible candidates. The
//! changes of its first good choice are put into groups, in two ways: the fine plan has a group for
//! each component of them, the level plan one for each level. A plan is linked to the packages that
//! are offered and checked over those that are installed; the level plan is tried only where the
//! check refuses the fine one.
//!
//! **A contract sees** packages as plain data, a universe and a choice as `choice_law` has them, a
//! plan's text as `plan_text` has it and a checked plan as `plan_law` has it, and what is wanted as
//! a record (`WishValue` of `specs/Wishes.antt`).
//!
//! **Proved**: [`choose_plan`] answers with the fine plan of the first good leaf of the tree of
//! choices, or, where the check refuses that, with its level plan (`IsPlanOf` of
//! `specs/Plans.antt`); it is accepted, hence sound, and its binds are right (`IsChosenPlan` of
//! `specs/Answers.antt`). Any other answer but want of memory tells why there is none (`Tells`
//! there): the first wanted atom that matches no value of the universe, with just the candidates of
//! its name, visible or hidden, by their versions, and why each isn't taken; that there is no
//! solution, with the first ten of the dead ends that the search met; which choices were tried in
//! vain where they are too many, and the first ten of these as dead ends; the packages of the first
//! cycle of builds; that there would be more than 4,096 groups; that an addition of the plan isn't
//! offered; or that the check refuses both plans, and what is first wrong with the level plan.
//! [`reasons_of`] tells the candidates of a name so.
//!
//! **Only tested**: that with ample memory it answers.
//!
//! For each wanted atom it looks at all lines once, before the search begins.
//!
//! ```
//! let wish = Wish { wanted, update: false, limit: 10 };
//! let chosen = choose_plan(alloc, &installed, &offered, &hidden, candidates, wish)?;
//! let text = chosen.text.print(alloc)?;
//! ```
#![tactic(auto)]

mod choosing;
mod chosen;
mod fault;
mod planning;
mod reason;
mod reasons;
mod searching;
mod serving;
mod wish;

pub use choosing::choose_plan;
pub use chosen::Chosen;
pub use fault::NotChosen;
pub use reason::{NotTaken, Reason};
pub use reasons::reasons_of;
pub use wish::Wish;
