//! What comes with a group of a plan, made for its merge: who is to own its paths, and the files of
//! its packages.
//!
//! **A contract sees** installed packages and the packages of a plan as plain data, a package that
//! comes as what it is and the entries of its image, and places of folders by the list of the
//! folders.
//!
//! **Proved**: the image of each package that comes is placed as it is, and behind it, where its
//! objects may be placed, the files of a folder that record the package with that image. A
//! package's key is the first place of its folder among those that are installed and those that
//! come behind them, so that the installed ones keep their keys: a law.
//!
//! **Only tested**, within whole runs: that with ample memory all this is made.
//!
//! It takes time in n log n of all packages and paths.
//!
//! ```
//! let mut places = Places::new(alloc);
//! places.add(alloc, &package.pkg.facts.id)?;
//! let files = files_of(alloc, &places, newcomer)?;
//! ```
#![tactic(auto)]

mod files;
mod laws;
mod named;
mod newcomer;
mod owned;
mod places;
mod removing;

pub use files::files_of;
pub use laws::owners_keep_their_keys;
pub use named::newcomers_are_named;
pub use newcomer::Newcomer;
pub use places::Places;
pub use removing::{add_free, placed};
