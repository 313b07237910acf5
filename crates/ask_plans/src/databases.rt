//! The packages of a database with a bar behind each, or its fault.

use crate::trees::tree_of;
use ask_lines::cut;
use file_tree::{Path, Quantity, TreeFault};
use std::alloc::{AllocError, Global};
use tree_mem::MemTree;
use vdb_record::Installed;
use vdb_text::{DatabaseFault, read_database};

/// Adds the package and its slot, and the paths that it owns.
fn push_package(alloc: Global, out: &mut String, package: &Installed) -> Result<(), AllocError> {
    let id = package.pkg.facts.id.print(alloc)?;
    out.push_str(id.as_str())?;
    out.push_str(":")?;
    out.push_str(package.pkg.facts.slot.text())?;
    for owned in &package.owned {
        out.push_str(" ")?;
        out.push_str(owned.path.text())?;
    }
    out.push_str("|")
}

fn list_text(alloc: Global, packages: &[Installed]) -> Result<String, AllocError> {
    let mut out = String::new(alloc);
    for package in packages {
        push_package(alloc, &mut out, package)?;
    }
    Ok(out)
}

/// A fault, and where it is.
fn at_path(alloc: Global, fault: &str, path: &Path) -> Result<String, AllocError> {
    let path = path.text();
    format!(in alloc; "{fault} {path}")
}

/// A fault of a text, and its line.
fn in_line(alloc: Global, path: &Path, line: u32) -> Result<String, AllocError> {
    let path = path.text();
    format!(in alloc; "text {path} {line}")
}

/// A fault of a value, and its place there.
fn in_value(alloc: Global, path: &Path, at: usize) -> Result<String, AllocError> {
    let path = path.text();
    format!(in alloc; "dep {path} {at}")
}

fn nested(alloc: Global, path: &Path, below: &Path) -> Result<String, AllocError> {
    let first = at_path(alloc, "nested", path)?;
    at_path(alloc, first.as_str(), below)
}

/// What there is too much of.
fn limit_of(quantity: Quantity) -> &'static str {
    match quantity {
        Quantity::Packages => "too many packages",
        Quantity::Paths => "too many paths",
        _ => "too much",
    }
}

fn fault_text(alloc: Global, fault: &DatabaseFault) -> Result<String, AllocError> {
    match fault {
        DatabaseFault::Name { path } => at_path(alloc, "name", path),
        DatabaseFault::Missing { path } => at_path(alloc, "missing", path),
        DatabaseFault::Eapi { path } => at_path(alloc, "eapi", path),
        DatabaseFault::Text { path, line } => in_line(alloc, path, *line),
        DatabaseFault::Dep { path, at } => in_value(alloc, path, *at),
        DatabaseFault::Limit { quantity } => String::from_str(alloc, limit_of(*quantity)),
        DatabaseFault::OwnedTwice { path } => at_path(alloc, "twice", path),
        DatabaseFault::Nested { path, below } => nested(alloc, path, below),
        DatabaseFault::Tree(TreeFault::Failed) => String::from_str(alloc, "failed"),
        DatabaseFault::Tree(TreeFault::Memory) => Err(AllocError),
    }
}

fn answer_text(
    alloc: Global,
    read: Result<Vec<Installed>, DatabaseFault>,
) -> Result<String, AllocError> {
    match read {
        Ok(packages) => list_text(alloc, &packages),
        Err(fault) => fault_text(alloc, &fault),
    }
}

fn read_tree(alloc: Global, tree: &mut MemTree) -> Option<String> {
    answer_text(alloc, read_database(alloc, tree)).ok()
}

/// The packages of the tree of these objects.
pub(crate) fn read(alloc: Global, parts: &str) -> Option<String> {
    let mut tree = tree_of(alloc, parts)?;
    read_tree(alloc, &mut tree)
}

/// The packages of the tree, of which one call fails.
pub(crate) fn read_failing(alloc: Global, parts: &str) -> Option<String> {
    let (call, parts) = cut(parts, '\t');
    let call = call.parse::<u64>().ok()?;
    let mut tree = tree_of(alloc, parts)?;
    tree.fail_at(call).ok()?;
    read_tree(alloc, &mut tree)
}
