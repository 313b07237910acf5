//! What a run of `run_plan` leaves that merges the groups of an accepted plan, in whatever order that
//! the plan allows: definitions, lemmas and two laws, and no code.
//!
//! **A contract sees** plans and their runs as `plan_law` has them, a tree's packages as `vdb_law`
//! does, and the turns of a plan's groups as `run_turns` and `run_plan` do.
//!
//! **Proved**: where the tree is sound (it keeps what its packages recorded, and they go together),
//! and the plan is accepted over them, whatever groups come in that are those of a run of the plan
//! (each once, and behind all that it waits for), and that make the changes of their turns, leave a
//! sound tree, with the packages after this run (`runs_leave_sound_trees`). The law knows of no other
//! order: that a group comes behind one that it needn't wait for is of no account. So whatever a
//! crash leaves at any moment of the plan's merge recovers to a sound tree, with the packages after a
//! run of the plan, at the end with all of the history in it. Unless the device failed or memory ran
//! out, the tree at the end is sound, with the packages after a run that is the history
//! (`plan_runs_are_sound`). Both ask that what comes can be recorded, as `run_files` does, and
//! nothing of the images: that turns with images of some kind are turns with whatever images is a
//! lemma (`proofs/Images.antt`), since no clause can speak of each kind. How a run ends that merges a
//! plan or nothing is said in `specs/Ends.antt`, with one plan and one list of turns for all moments;
//! that from a disk which runs begin with it leaves such a disk is a lemma for the calls that promise
//! it (`proofs/Ended.antt`), since no clause can speak of each kind of choice.
//!
//! **Only tested**: nothing, since a law has no body.
//!
//! ```
//! runs_leave_sound_trees();
//! ```
#![tactic(auto)]

mod laws;

pub use laws::{plan_runs_are_sound, runs_leave_sound_trees};
