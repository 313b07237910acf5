//! The hall in which threads take turns at one value that keeps its history.
//!
//! A value lies in a [`Hall`]. A thread with a [`Pass`] waits for its turn, takes the value out,
//! and puts it back with one event more at most. Passes are made by cutting one into parts, and are
//! moved to threads; the pass with all parts closes the hall. Tickets are served in their order.
//!
//! **A contract sees** the value by its history and by what it has in common with others
//! (`merge_core`: `Logged`), and a pass as what it knows (`specs/Views.antt`): the value that was
//! put in, its own groups, the history that it has seen, and of each of its groups the events.
//!
//! **Proved**: there is one history. Whoever gets the turn gets a value that has the opening in
//! common with the one that was put in, whose history begins with all that the pass has seen; of
//! the pass's own groups that history has just the events that the pass knows. A group that a turn
//! begins is the pass's own, and so are those of a pass that it took in; no two passes have one
//! group. At the end no event is there of any other group. Where groups are not to go on behind
//! one that was given up, none begins behind it. Passes and halls may cross threads where the value
//! may, and no call but `open` takes memory.
//!
//! **Only tested**: that threads get their turns, and that a thread which parks is woken. Nothing
//! is said of who comes first, or how soon.
//!
//! ```
//! let mut turn = hall.enter(rt, &mut pass);
//! turn.value.step(event);
//! hall.leave(&mut pass, turn);
//! ```
#![tactic(auto)]

mod calls;
mod hall;
mod rule;
#[cfg(test)]
mod tests;
mod views;

pub use hall::{Hall, Pass, Turn};
