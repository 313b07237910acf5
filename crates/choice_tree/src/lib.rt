//! Choices of what to install, what each line has under a choice, and what may be decided of it.
//!
//! A universe offers for each line what is installed there, nothing, and a list of variants, and it
//! has the atoms that are wanted. A choice decides some lines; the others stay as they are.
//!
//! **A contract sees** a universe as that of `choice_law` (`universe_of` of `specs/Views.antt`), a
//! [`Choice`] as its decisions, an obligation as that of `choice_law`, and a [`Place`] as what is
//! offered and what is decided on its line (`place_of` of `specs/Seen.antt`).
//!
//! **Proved**: what is open of a choice is taken up in an order that is written out whole in
//! `specs/Open.antt`, and what is first open is a pick, so the laws of `choice_law` hold of it. Its
//! options are written out in `specs/Options.antt` and `specs/Candidates.antt`, in their order:
//! they are just those of `choice_law`, and each decides a line more; none is tried of a hopeless
//! choice (`tried_options` of `specs/Tree.antt`). [`decisions`] gives the decisions by which it may
//! be closed, and [`beside`] those of the second line of a conflict.
//! Under each text a [`Keyed`] has just the lines that may have such a package, so what meets a
//! need and what serves it is found by its name ([`Around`]).
//!
//! What is first open of a choice tells `choice_walk`, which goes through the tree.
//!
//! **Only tested**: that with ample memory each call answers.
//!
//! ```
//! let choice = Choice::new(alloc);
//! let next = choice.with(alloc, line, Value::Absent)?;
//! ```
#![tactic(auto)]

mod around;
mod blocks;
mod calm;
mod candidate;
mod choice;
mod choosing;
mod classes;
mod filtering;
mod gathering;
mod key;
mod keyed;
mod laws;
mod obligation;
mod opposing;
mod place;
mod places;
mod ranking;
mod repeats;
mod standing;
mod step;
mod universe;
mod value;

pub use around::Around;
pub use calm::is_calm;
pub use choice::Choice;
pub use choosing::{beside, decisions};
pub use classes::CLASSES;
pub use key::Key;
pub use keyed::Keyed;
pub use laws::{first_open_is_a_pick, options_are_those, options_decide_more};
pub use obligation::Obligation;
pub use opposing::conflict;
pub use place::Place;
pub use places::{any_decides, any_opposes, opposes};
pub use standing::Standing;
pub use step::Step;
pub use universe::{Offer, Universe};
pub use value::{Decision, Value};
