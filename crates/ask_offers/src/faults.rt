//! The faults of a configuration.

use file_tree::{Path, TreeFault};
use profile_folders::ProfileFault;
use profile_lines::ReadFault;
use std::alloc::{AllocError, Global};

/// The name of the fault, and where it is.
pub(crate) fn fault_text(alloc: Global, fault: &ReadFault) -> Result<String, AllocError> {
    match fault {
        ReadFault::Profile(fault) => profile_text(alloc, fault),
        ReadFault::Atom { path, line } => in_line(alloc, "atom", path, *line),
    }
}

fn profile_text(alloc: Global, fault: &ProfileFault) -> Result<String, AllocError> {
    match fault {
        ProfileFault::Missing { path } => missing(alloc, path),
        ProfileFault::Loop { path, line } => in_line(alloc, "loop", path, *line),
        ProfileFault::Deep { path, line } => in_line(alloc, "deep", path, *line),
        ProfileFault::Text { path, line } => in_line(alloc, "text", path, *line),
        ProfileFault::Tree(TreeFault::Failed) => String::from_str(alloc, "failed"),
        ProfileFault::Tree(TreeFault::Memory) => Err(AllocError),
    }
}

fn missing(alloc: Global, path: &Path) -> Result<String, AllocError> {
    let path = path.text();
    format!(in alloc; "missing {path}")
}

fn in_line(alloc: Global, fault: &str, path: &Path, line: u32) -> Result<String, AllocError> {
    let path = path.text();
    format!(in alloc; "{fault} {path} {line}")
}
