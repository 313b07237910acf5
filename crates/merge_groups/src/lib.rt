//! What a choice changes, as plans: the fine plan, the level plan, and one group of all changes; and
//! packages that go, as a plan of one group.
//!
//! What is installed on a line goes, unless it is kept, and a variant that is chosen comes; a line
//! that isn't decided stays as it is. The fine plan has a group for each component of changes that
//! wait for one another (`merge_edges`, `merge_graph`); the level plan has one for each level of
//! these, and each waits for the one before it. An addition has those of its own flags that are on,
//! and a bind for each leaf of its RDEPEND that asks for one: the slot and the subslot of the greatest
//! package that the leaf matches and that stands beside the group, as the check of plans asks; in one
//! group of all that is a package of the result. Where it matches none the bind has the slot that the
//! leaf names.
//!
//! **A contract sees** a universe and a choice as `choice_tree` has them, and a plan's text as the
//! list of its groups, as `plan_text` has it.
//!
//! **Proved**: [`arrange`] answers with the fine plan and the level plan of a choice (`IsFine`,
//! `IsLevel` of `specs/Arranged.antt`, on `Grouped.antt` and `Written.antt`), both in form. Any other
//! answer but want of memory tells why there is none (`HasNoPlan`): the packages of the first
//! component that builds on itself, or that the fine plan would have more than 4,096 groups; each of
//! these shuts out the others. A law says that the groups of a fine plan are the components, and that
//! none waits for itself in the end. [`single_plan`] takes away and brings just what the choice
//! changes, each once, in the order that the text of a plan has (`IsSingle` of `specs/Single.antt`),
//! in one group, or in none where nothing changes; so the plan is in form. [`unmerge_plan`] takes
//! away just the packages that it is given (`IsUnmerge` of `specs/Unmerge.antt`), in the same way.
//!
//! **Only tested**: that with ample memory it answers.
//!
//! What comes and goes is sorted once, and the packages beside a group are sought by their names. What
//! is decided of a line is sought among the decisions, as in each step of the search. That one group
//! waits for another in the end is looked up in a table of bits, as in the check.
//!
//! ```
//! let Arranged { fine, level } = arrange(alloc, &installed, &universe, &choice)?;
//! let text = fine.print(alloc)?;
//! ```
#![tactic(auto)]

mod arranged;
mod arranging;
mod beside;
mod binding;
mod change;
mod components;
mod drafting;
mod flags;
mod grouping;
mod laws;
mod lines;
mod named;
mod order;
mod part;
mod sides;
mod single;
mod unmerge;
mod writing;

pub use arranged::{Arranged, NotArranged};
pub use arranging::arrange;
pub use laws::fine_plans_are_partings;
pub use single::single_plan;
pub use unmerge::unmerge_plan;
