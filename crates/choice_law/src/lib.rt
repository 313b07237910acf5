//! The tree of choices of what to install, and what its good leaves have to do with solutions: laws,
//! and no code.
//!
//! **A contract sees** a universe as what may stand on each line, a choice as a list of decisions,
//! and packages as `pkg_state` has them.
//!
//! **Proved**: a good leaf is a solution, and where there is a solution the tree has a good leaf,
//! whichever open obligation is taken up first and in whatever order its options are tried. So a
//! tree without a good leaf shows that there is no solution.
//!
//! That something is open of a choice rests on some of the decided lines alone, which are its reason
//! (`specs/Reasons.antt`). A solution that agrees with the choice on those agrees with what some
//! option adds, whatever it has on the other lines. And a choice is hopeless where what a package on
//! a decided line needs doesn't hold even among all packages that may yet stand
//! (`specs/Possible.antt`): no solution agrees with it on the reason.
//!
//! **Only tested**: nothing, since a law has no body.
//!
//! ```
//! good_leaves_are_solutions();
//! ```
#![tactic(auto)]

mod laws;

pub use laws::{
    good_leaves_are_solutions, hopeless_choices_fail, reasons_suffice, solutions_have_leaves,
};
