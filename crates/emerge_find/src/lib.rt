//! What a run is to merge: from what a command asks and the recovered tree to the plan, or to why
//! there is none.
//!
//! The configuration, the profile and the repository's cache of the tree give the offers, its
//! database the installed packages; of both the plan is chosen, linked and checked. Or the plan
//! stands in a file of the tree, and is linked to the same offers and checked over the same
//! packages; or it takes away the installed packages that atoms match, and is checked so too.
//!
//! **A contract sees** the tree as its story, and what there is to choose from as a record
//! ([`Found`] and `Choices` of `specs/Choices.antt`).
//!
//! **Proved**: [`asked_of`] takes just the requests that merge what their atoms match, and those of
//! the world file where it is named, without a repair, those that do the plan of a file, and those
//! that unmerge what their atoms match. [`find_plan`] answers with the installed packages, who owns what among them, and the
//! plan that is chosen of the tree's offers over them, or that the file has, or in which just what
//! the atoms match goes (`IsFound` of `specs/Choices.antt`). Any other answer but a
//! failure and want of memory tells why there is none (`Refuses` of `specs/Refusals.antt`), in this
//! order: the first fault of the configuration, too many candidates, the first fault of the text of
//! the file (`specs/Files.antt`), that no run can begin with the installed packages, and then why
//! nothing is chosen of what is offered, or why what is chosen has no plan, or what the file's plan
//! has wrong, or which atom matches nothing that is installed, or why that may not go
//! (`specs/Lacking.antt`).
//! The tree is only read. A law says that the plan is accepted over the installed packages, and
//! that what comes with it can be recorded (`specs/Laws.antt`).
//!
//! **Only tested**: that with ample memory it answers.
//!
//! ```
//! let Some(asked) = asked_of(request) else { return Ok(()) };
//! let found = find_plan(alloc, &mut tree, asked)?;
//! let groups = found.chosen.plan.groups();
//! ```
#![tactic(auto)]

mod asked;
mod choosing;
mod ends;
mod filing;
mod finding;
mod found;
mod laws;
mod offered;
mod source;
mod unfiled;
mod unmade;
mod unmerge;
mod world;

pub use asked::{Aim, Asked, asked_of};
pub use ends::NoPlan;
pub use finding::find_plan;
pub use found::Found;
pub use laws::found_plans_are_fit;
