//! The profile of a tree, read as a whole: the masks of the repository, and of each folder of the
//! profile its variables and the items of its line files. The user's line files are read by the
//! same readers (`read_line_file`, `count_entries`).
//!
//! **A contract sees** a line as its words, an item by its text, which has one space between its
//! words, and a profile as lists of assignments and items (`Content` in `specs/Files.antt`). An
//! atom is one that has this spelling.
//!
//! **Proved**: what a line says is read exactly where it is in form, and a file of lines is refused
//! at its first other line, by its file and number. A hyphen before an atom takes back every equal
//! item; a mask stands once. A profile is read from just those files, in their order, each parent
//! before the profile that names it: where one is at fault the first fault is told, and where none
//! is only the machine can fail. The tree is only read.
//!
//! **Only tested**: that with ample memory a profile is read.
//!
//! ```
//! let profile = read(alloc, &mut tree, &path)?;
//! let masked = profile.masks.iter().any(|mask| mask.text.as_str() == "dev-libs/icu");
//! ```
#![tactic(auto)]

mod entries;
mod fault;
mod file;
mod folder;
mod item;
mod profile;
mod stack;
mod whole;
mod words;

pub use entries::read_entries;
pub use fault::ReadFault;
pub use file::read_line_file;
pub use folder::read_folder;
pub use item::{Entry, Form, Item};
pub use profile::{DefaultsFile, Profile};
pub use stack::count_entries;
pub use whole::read;
