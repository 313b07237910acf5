//! From the text of a plan to the plan that it stands for, over the packages that are offered.
//!
//! Each addition of the text is the first offered package of its name, version and slots. It comes
//! with the flags of the text and the implicit ones on, and as it enters: the leaves of its RDEPEND
//! that ask for a bind take those of the text, in written order, and each other slot operator that
//! names no subslot is dropped, in all classes. No bind reaches into an any-of group or into one
//! whose condition isn't met, a block asks for none, and a slot that is written stays.
//!
//! **A contract sees** a text as the list of its groups, as `plan_text` has it, and a plan as
//! `plan_lives` has it.
//!
//! **Proved**: of a text in form [`link`] gives a plan that is linked to it, group by group and
//! addition by addition (`IsLinked` of `specs/Linked.antt`). But for want of memory it is refused
//! exactly where an addition names no offered package, or where it has a flag that its package
//! doesn't know, for the first such addition and flag (`link_rule` of `specs/Faults.antt`).
//! [`asks_of`] tells of each addition which leaves ask for a bind, as they are written, and which
//! binds the text has (`specs/Asking.antt`). [`accept`], through which every source of a plan goes,
//! takes a text in form exactly where each addition is offered, the plan that it stands for is
//! accepted over the installed packages, hence sound over every order of its groups, and its binds
//! are right; any other is refused for the first fault of these (`specs/Accepting.antt`).
//! [`asking_leaves`] tells those of a package as it is. A law says that what comes with a plan which
//! is linked to a text in form can be recorded, where the offered packages are in form and have just
//! the implicit flags on (`specs/Laws.antt`).
//!
//! **Only tested**: that with ample memory a text is linked and accepted.
//!
//! The packages that are offered are sorted by their names once; an addition is sought among those of
//! its name alone.
//!
//! ```
//! let text = plan_text::Plan::parse(alloc, "plan 1\ngroup 1\nadd c/p-1:0/0\n")?;
//! let plan = accept(alloc, &installed, &offered, &text)?;
//! ```
#![tactic(auto)]

mod acceptance;
mod asking;
mod entering;
mod fault;
mod finding;
mod flags;
mod group;
mod laws;
mod linking;
mod offers;
mod package;

pub use acceptance::accept;
pub use asking::{asking_leaves, asks_of};
pub use fault::{LinkFault, NotAccepted};
pub use laws::linked_additions_can_be_kept;
pub use linking::link;
