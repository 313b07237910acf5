//! The check of a plan over the packages that are installed: it is accepted, or the first rule that
//! it breaks is told.
//!
//! The rules over the whole plan are tried first (`plan_rules`), and then these, package by package:
//! the flags of an addition go together; its slot operators are bound to the greatest packages beside
//! it; what it needs while it runs is there all through its life; what it blocks weakly isn't there
//! with it; what it blocks strongly isn't either, nor is what bars it when it may come; what it wants
//! for its build is there whenever it may come; and what it wants later is there at the end. Packages
//! are tried in their order: the installed ones by their lines, then those of each group by theirs.
//!
//! **A contract sees** a plan as `plan_lives` has it, a refusal as `plan_rules` has it, and what an
//! addition asks of the binds ([`Asked`]) as its leaves and binds.
//!
//! **Proved**: [`check`] answers Ok exactly on accepted plans (`IsAccepted` of `plan_law`) whose binds
//! are right (`AreBound` of `specs/Binding.antt`), but for want of memory, and these are sound over
//! every order of their groups. Any other plan is refused by the first rule that it breaks
//! (`check_rule` of `specs/PackageRules.antt`), with the first package that breaks it, and with the
//! leaf, the bind, the first other package or the groups that the rule names: of several groups in disorder
//! the first two by their line and then by their numbers. What a package may miss while it runs is
//! told as unsatisfied where it is missing when the package comes or, if that stays, at the end; and
//! as unsafe where it is missing in between alone.
//!
//! **Only tested**: that with ample memory an accepted plan is accepted.
//!
//! The look-ups take time in n log n: a rule looks at the lives of one line, of one name or of a
//! block's name, and goes through all packages only where it is about to refuse.
//!
//! ```
//! let plan = Plan::new(groups).ok_or(Fault::Form)?;
//! check(alloc, &installed, &plan, &asks)?;
//! ```
#![tactic(auto)]

mod asked;
mod blocked;
mod checking;
mod coming;
mod finished;
mod lasting;
mod queue;
mod required;
mod tried;
mod unmet;

pub use asked::Asked;
pub use checking::check;
