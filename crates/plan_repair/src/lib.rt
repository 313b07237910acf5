//! The check of a plan of at most one group that repairs packages which don't go together.
//!
//! What comes is judged by the rules of any plan, over the installed packages as if these needed
//! nothing: so the plan isn't refused for what is broken to begin with. Then the packages behind
//! the group are to go together, those that were there and stay among them. The first rule that is
//! broken is told as the check of plans tells it.
//!
//! **A contract sees** a plan and packages as `plan_lives` and `pkg_state` have them.
//!
//! **Proved**: [`check_repair`] answers Ok exactly on repairs (`IsRepair` of `specs/Repair.antt`),
//! but for want of memory; the binds of what comes are right then, too. Behind a run of the whole
//! plan the packages are consistent then. Any other plan is refused by the first rule that it breaks
//! (`repair_rule`).
//!
//! **Only tested**: that with ample memory a repair is accepted.
//!
//! It takes the time of a check, and of a copy of all packages.
//!
//! ```
//! check_repair(alloc, &installed, &plan, &asks)?;
//! ```
#![tactic(auto)]

mod bare;
mod behind;
mod checking;

pub use checking::check_repair;
