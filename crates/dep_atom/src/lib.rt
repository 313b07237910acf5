//! Packages by name and version, and the atoms of dependencies that match them.
//!
//! **A contract sees** a package as its name and its version's parts, and an atom by its fields
//! (`AtomValue`), of which it has one spelling.
//!
//! **Proved**: a package is read exactly from its category and its name with a version; an atom is
//! read exactly from its spelling, in which it is printed; each refusal names the first fault from
//! left to right, of which there is one; an atom matches a package exactly where its name, its
//! version under its operator, its slot part and each of its USE items accept it.
//!
//! **Only tested**: rows of matches, long names and lists, and that with ample memory each is
//! read.
//!
//! ```
//! let atom = Atom::parse(alloc, ">=dev-libs/icu-74:0")?;
//! let fits = atom.matches(&package, &flags);
//! ```
#![tactic(auto)]

mod atom;
mod fault;
mod laws;
mod naming;
mod package;
mod reading;
mod slot;
mod uses;

pub use atom::{Atom, Block, Op};
pub use fault::AtomFault;
pub use laws::one_fault;
pub use package::{Facts, PackageId};
pub use slot::{Bind, SlotPart};
pub use uses::{UseDep, UseKind};
