//! Versions of packages: read from text, and compared as PMS 3.3 says.
//!
//! **A contract sees** a [`Version`] as its parts: numbers, a letter, suffixes and a revision.
//!
//! **Proved**: each text within the limits of 255 bytes and 38 digits a number is read exactly
//! where it is a version's; each refusal names the first fault, of which a text has one;
//! [`Version::compare`] is the order of PMS on the five parts, which is total up to equality;
//! [`Version::begins`] is the reading of `=…*`.
//!
//! **Only tested**: comparisons from outside, and that with ample memory a version is read.
//!
//! ```
//! let order = Version::parse(alloc, "1.0")?.compare(&Version::parse(alloc, "1.00")?);
//! ```
#![tactic(auto)]

mod check;
mod fault;
mod laws;
mod limits;
mod number;
mod reading;
mod suffix;
mod version;

pub use fault::VersionFault;
pub use laws::{each_begins_itself, one_fault, order_is_that_of_keys, order_is_total};
pub use version::Version;
