//! What a run may choose from: the configuration, the profile and the repository's cache of a tree,
//! put together.
//!
//! **A contract sees** the tree as what its paths hold, what is configured as `profile_stack` does
//! beside the files that set variables (`Setup` of `specs/Configured.antt`), and a candidate as the
//! packages that may come of it.
//!
//! **Proved**: [`read_offers`] gives the offers of the tree (`AreOffers` of `specs/Offers.antt`): of
//! the candidates that its configuration has visible, in their order, those of which some setting
//! may be chosen, with a package for each such setting; the others with their reasons; and the flags
//! that are on for all. Where it can't, it tells the first fault: of the files in the order in which
//! they are read, then of the values of their variables, and then that more than
//! [`MOST_CANDIDATES`] are visible. The tree is only read.
//!
//! **Only tested**: that with ample memory the offers are read.
//!
//! ```
//! let offers = read_offers(alloc, &mut tree, 2)?;
//! let candidate = &offers.candidates[0];
//! ```
#![tactic(auto)]

mod collecting;
mod config;
mod fault;
mod files;
mod offers;
mod reading;
mod rules;
mod said;
mod visible;

pub use fault::OffersFault;
pub use offers::{Hidden, Offers, Reason};
pub use reading::{MOST_CANDIDATES, read_offers};
