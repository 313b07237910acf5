//! Where the record of an installed package stands in the database: the folder of all packages, a
//! package's own folder, and the files in it.
//!
//! **A contract sees** a path as its text, and a file of a record as an entry with plain bytes.
//!
//! **Proved**: the paths are exactly those of the format, below the database's folder, and each file
//! of a package has its own.
//!
//! **Only tested**, by the crates above: that with ample memory each path is made.
//!
//! ```
//! let path = path_of_record(alloc, &id, "SLOT")?;
//! ```
#![tactic(auto)]

mod files;
mod laws;

pub use files::{id_is_one, path_of_database, path_of_package, path_of_record};
pub use laws::files_apart;
