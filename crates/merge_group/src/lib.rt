//! Groups merged one after another into a tree at rest through one site, from its opening to the
//! cleared journal, turn by turn: each turn may be made when those before it are merged. A group
//! brings any number of packages, and removes the paths that go with it.
//!
//! **A contract sees** the tree as its story, the groups that a crash leaves and the tree holds
//! (`WentWith`, and `Went` of groups of one kind), the sink as the bytes that it took, and the
//! machine as its standings and its order.
//!
//! **Proved**: each crash image of each moment recovers to the tree from before with the first
//! groups of the run applied, in their order, at the end all of the history among them; unless the
//! device failed just these; unless memory ran out either, the tree reads so, with no journal and
//! nothing unsynced. A group is applied only where its claim is granted over what those before it
//! left (`AreLetIn`): a book that has the owners from before the run, and these groups' paths as
//! their own, takes its paths and lets its removals go, and nothing that nobody owns was in its way
//! in the tree with them. What a group removed is nobody's then, and free for the next one.
//! The history is the machine's order, whatever failed. The first group that is stopped ends the
//! run: no later one has begun. The acknowledged groups are the first of the history, and all of it
//! where a group was stopped for what it has; what was written is their lines, and then some
//! beginning of the next one's. A run that a file, a limit or a claim stopped has its cause, over
//! what the groups of the history left (`StopsBehind`); only want of memory comes without one.
//!
//! **Only tested**: with ample memory a group is merged, or refused for its first collision, a
//! package goes whose path the next group takes, and two packages come in one group.
//!
//! ```
//! let mut site = open_run(alloc, tree, sink, book, groups)?;
//! let end = merge_next(&mut site, turn, &mut history, &mut acknowledged);
//! let closed = close_run(alloc, site, end);
//! ```
#![tactic(auto)]

mod claiming;
mod clearing;
mod ends;
mod files;
mod merging;
mod next;
mod opening;
mod running;
mod sealing;
mod staging;
mod stop;
mod telling;
mod turn;

pub use ends::{Closed, close_run, open_run};
pub use files::Files;
pub use next::merge_next;
pub use stop::Stop;
pub use turn::Turn;
