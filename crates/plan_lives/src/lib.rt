//! A plan of groups, the lives of its packages, and what is there at each time of every run.
//!
//! A life is a package with the moment from which it is there and the one that takes it away: before
//! all groups, with a group, or never. Groups are committed in any order in which each comes behind
//! those that it waits for, so of two moments one may come before the other in each run, or in some
//! runs alone. A stretch is the time while a package is there, or until a group may come.
//!
//! **A contract sees** a [`Plan`] as the list of its groups, each as `plan_law` has it, and a package
//! as a record.
//!
//! **Proved**: a plan is made of just those groups that wait for earlier ones alone, at most 4,096.
//! [`Reach`] tells of each two groups whether one reaches the other. [`lives_of`] lists the lives of
//! a plan over packages, each of them and no other, in the order of packages. An [`Index`] finds them
//! by their line and by their name ([`index_of`]). Of a [`Stretch`] it is told whether a moment is
//! past when it begins, and whether it comes no earlier than its end; and whether what trees of
//! dependencies ask is there all through it ([`are_firm`]), with the leaf to name where it isn't
//! ([`leaf_of_all`]) and the groups that may come meanwhile ([`meeting`]). A bind is right where it
//! names the slot of the greatest package beside the group ([`is_right`]). The packages that are
//! there at a moment are listed, if just what comes before it has happened ([`there_at`]), and those
//! that are left at the end ([`Packages::left`]). All of these are exact, but for want of memory.
//!
//! **Only tested**: that with ample memory an answer comes.
//!
//! The lives and the look-ups take time in n log n. A chain goes through the lives that its atoms
//! match, at worst once for each of them. Of n groups each pair where one waits for the other costs
//! n / 64 words.
//!
//! ```
//! let plan = Plan::new(groups).ok_or(Fault::Form)?;
//! let lives = lives_of(alloc, &installed, plan.groups())?;
//! ```
#![tactic(auto)]

mod binding;
mod chain;
mod chains;
mod firm;
mod home;
mod index;
mod indexing;
mod keeping;
mod life;
mod lives;
mod meetings;
mod packages;
mod plan;
mod reach;
mod standing;
mod stretch;

pub use binding::{greater, is_right};
pub use firm::{are_firm, leaf_of_all};
pub use home::there_at;
pub use index::Index;
pub use indexing::{index_of, lines_of};
pub use keeping::{barring_blocks, running_blocks, some_matches};
pub use life::{Life, Moment};
pub use lives::lives_of;
pub use meetings::meeting;
pub use packages::{Packages, by_own_name};
pub use plan::{Group, Plan, Removal};
pub use reach::Reach;
pub use standing::stands_before;
pub use stretch::{Stretch, is_commit_of};
