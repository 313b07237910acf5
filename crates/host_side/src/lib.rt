//! The tree, the sink and the builders of the host: folders, standard output, programs.
//!
//! A [`HostTree`] keeps its objects as files and links below a folder, which it holds locked. What it
//! writes it writes beside the target and renames, and a file that it places is the other one under a
//! second name, so that no file of a running system is ever half written. A sync makes files durable
//! in threads. A [`HostSink`] is standard output. A [`FolderBuilder`] takes the image of a package
//! from a folder, and a [`CommandBuilder`] has a program prepare that folder first, which is started
//! with the words of the order: `category/package-version`, `slot/subslot`, and each flag that is on.
//! Where a person looks on, each of them tells by a [`Progress`] how far it is: one line on standard
//! error, from the first second of a run on.
//!
//! **A contract sees** the counts of failures and the builders' numbers. What a disk holds no
//! contract can say, so these types tell no content.
//!
//! **Proved**: each call is safe and returns, a failure is counted, a list of paths is in byte
//! order, the image of a package is sought in its own folder, the program which builds it has the
//! words of its order (`order_words` of `specs/Words.antt`), and no path is the name of what isn't
//! written whole yet.
//!
//! **Only tested**: what reaches a real disk, by `tests/host`. Each failure is told on standard
//! error: the call, the path, and the system's error.
//!
//! ```
//! let mut tree = HostTree::open(rt, rt, root, progress, None)?;
//! let held = tree.read(&path)?;
//! ```
#![tactic(auto)]

mod builders;
mod changes;
mod faults;
mod folder;
mod open;
mod programs;
mod progress;
mod sink;
mod spare;
mod tree;
mod unsynced;
mod watch;
mod writing;

pub use builders::{CommandBuilder, FolderBuilder};
pub use open::OpenFault;
pub use progress::Progress;
pub use sink::HostSink;
pub use spare::no_path_is_spare;
pub use tree::HostTree;
