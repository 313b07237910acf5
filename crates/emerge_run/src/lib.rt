//! The top call of the product: one command, from its words to its last line.
//!
//! **A contract sees** the tree as its story, the sink as the bytes that it took, the builders by
//! the images that they tell, and a run's end by its status, the packages that it found installed,
//! its plan, the order of its machine, its groups and the acknowledged ones. What a run promises is
//! the headline and one record, `RunsCommand` (`specs/Commands.antt`); what it promises of what it
//! finds is `ChoosesWork` (`specs/Choosing.antt`), and of the merge in it `MergesTask`
//! (`specs/Merges.antt`). `proofs/Promises.antt` leads from these two to the whole.
//!
//! **Proved**: a crash at any moment recovers to what the tree recovered to, with a run of the plan,
//! at its end with all of the history in it; from a tree that keeps what its packages recorded, and
//! where they go together, it recovers to such a tree. The plan is that of the first good choice for
//! what the words ask, or the one that stands in their file, it is accepted, and it is the one that
//! comes back; each group does just what was made of it, and its claim was granted over what those
//! before it left. The
//! answer is the one that was asked for, and the installed packages come back where they were read;
//! what was written is the lines of the acknowledged groups, or the plan that is shown, and the last
//! line; each answer but want of memory has its cause; the pool comes back whole.
//!
//! **Only tested**: whole runs with ample memory.
//!
//! ```
//! let ended = emerge(alloc, &words, tree, out, pool);
//! ```
#![tactic(auto)]

mod choosing;
mod merging;
mod prepare;
mod run;
mod showing;
mod words;

pub use run::{Ended, emerge};
