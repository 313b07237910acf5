//! What the groups of a plan do to the packages of a tree, made for a run that merges them one after
//! another: what a site is opened for, from the plan alone, and the turn of each group, once those
//! before it are merged and the images of its additions are built.
//!
//! **A contract sees** installed packages and the groups of a plan as plain data, a turn as
//! `merge_group` does, and what is held as the list of the paths of each folder.
//!
//! **Proved**: a package's key is the first place of its folder among those that are installed and
//! all that come with the plan behind them. With a group die the keys of the packages that its
//! removals name. Its turn places the image of each addition, and behind it the files of a folder
//! that record the package with that image; it removes what is held for the packages that go, but
//! for what it places. For an installed package that some group removes what it owns is held, and
//! for one that came what it placed.
//!
//! **Only tested**, within whole runs: that with ample memory all this is made.
//!
//! It takes time in n log n of all packages and paths.
//!
//! ```
//! let places = plan_places(alloc, &installed, &plan)?;
//! let groups = site_groups(alloc, &places, &plan, &jobs)?;
//! let mut held = held_paths(alloc, &mut tree, &installed, &plan)?;
//! let turn = make_turn(alloc, &places, &mut held, &plan[0], 1, newcomers)?;
//! ```
#![tactic(auto)]

mod held;
mod holding;
mod job;
mod keys;
mod sites;
mod turn;

pub use held::Held;
pub use holding::held_paths;
pub use job::Job;
pub use keys::plan_places;
pub use sites::site_groups;
pub use turn::make_turn;
