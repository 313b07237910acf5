//! The record of one installed package, as it is written: the files of its folder, each with its
//! text.
//!
//! **A contract sees** an installed package as plain data, and the files as entries.
//!
//! **Proved**: the files are exactly those of the package, in byte order of their names, each with
//! its one text. A folder of just these files says the package, so that it is read back; and what
//! any folder says can be written. The flags that a record has are the enabled ones of the package's
//! own.
//!
//! **Only tested**: that with ample memory the files of a package are made.
//!
//! ```
//! let files = folder_files(alloc, &installed)?;
//! ```
#![tactic(auto)]

mod contents;
mod files;
mod flags;
mod laws;
mod named;
mod texts;

pub use files::folder_files;
pub use flags::recorded_flags;
pub use laws::{records_are_read_back, said_packages_are_recordable};
pub use named::facts_are_named;
