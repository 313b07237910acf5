//! The record of one installed package: what the texts of its folder's files tell.
//!
//! **A contract sees** the texts as a map from the files to their bytes, and an installed package as
//! plain data.
//!
//! **Proved**: texts are read exactly where they tell a package of this id, as just that package;
//! else they are refused with their first fault.
//!
//! **Only tested**: that with ample memory a record is read, on rows for each kind of fault.
//!
//! ```
//! let installed = read_record(alloc, id, &texts)?;
//! ```
#![tactic(auto)]

mod fault;
mod file;
mod installed;
mod laws;
mod lines;
mod reading;
mod texts;
mod values;

pub use fault::RecordFault;
pub use file::RecordFile;
pub use installed::Installed;
pub use laws::texts_tell_what_folders_say;
pub use reading::read_record;
pub use texts::{FileText, RecordTexts};
