//! The names of which atoms, dependencies and flag sets are made: categories, packages, slots and
//! USE flags, and sets of flags.
//!
//! **A contract sees** a name as its bytes, and [`Flags`] as the list of its flags in byte order.
//!
//! **Proved**: a text is accepted as a name exactly where it is one, any other text is refused
//! with its first fault, of which it has one, and a [`Flags`] is a set, listed in byte order.
//!
//! **Only tested**: that with ample memory a name is read and a flag put in.
//!
//! ```
//! let flag = Flag::parse(alloc, "python_targets_python3_12")?;
//! flags.insert(flag)?;
//! ```
#![tactic(auto)]

mod fault;
mod flags;
mod kind;
mod laws;
mod limits;
mod name;
mod version;

pub use fault::NameFault;
pub use flags::Flags;
pub use kind::{Kind, NameKind, OfCategory, OfFlag, OfPackage, OfSlot};
pub use laws::one_fault;
pub use name::{Category, Flag, Name, NameOf, PackageName, SlotName};
pub use version::is_version_text;
