//! The installed packages of a tree, read from its database.
//!
//! **A contract sees** a tree as its story, the files of a package's folder as the map of their
//! texts, and an installed package as plain data.
//!
//! **Proved**: a tree's database is read exactly where its map has one within the limits in which no
//! path has two owners or is above another, as just its packages in byte order of their folders.
//! Else the first fault is told: that of the first folder in this order that tells no package, with
//! the path of the folder or of the file; else that there are too many packages, or else too many
//! owned paths; else the first path that two packages own, or that is above another.
//! The paths that a package owns are exactly those in its own folder and those that it recorded.
//! The tree is only read.
//!
//! **Only tested**: that with ample memory a database is read, on rows for each kind of fault.
//!
//! ```
//! let packages = read_database(alloc, &mut tree)?;
//! ```
#![tactic(auto)]

mod database;
mod fault;
mod folders;
mod limits;
mod owned;
mod package;
mod package_paths;
mod paths;
mod texts;

pub use database::read_database;
pub use fault::DatabaseFault;
pub use folders::list_folders;
pub use limits::MOST_PACKAGES;
pub use package_paths::paths_of;
pub use texts::read_folder;
