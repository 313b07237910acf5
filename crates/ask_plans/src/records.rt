//! What the first package of a database has recorded, and what is written of it.

use crate::trees::tree_of;
use file_tree::Entry;
use pkg_state::Pkg;
use pms_names::Flags;
use std::alloc::{AllocError, Global};
use vdb_files::{folder_files, recorded_flags};
use vdb_record::Installed;
use vdb_text::read_database;

/// Adds the flags, with a space behind each.
fn push_flags(out: &mut String, flags: &Flags) -> Result<(), AllocError> {
    for flag in flags.list() {
        out.push_str(flag.text())?;
        out.push_str(" ")?;
    }
    Ok(())
}

/// Adds the text, and a bar.
fn push_value(out: &mut String, text: String) -> Result<(), AllocError> {
    out.push_str(text.as_str())?;
    out.push_str("|")
}

fn push_record(alloc: Global, out: &mut String, pkg: &Pkg) -> Result<(), AllocError> {
    push_value(out, pkg.rdepend.print(alloc)?)?;
    push_value(out, pkg.bdepend.print(alloc)?)?;
    push_value(out, pkg.required_use.print(alloc)?)?;
    push_flags(out, &pkg.facts.iuse)?;
    out.push_str("|")?;
    push_flags(out, &pkg.facts.enabled)
}

/// Adds the file, with its path behind the database's folder.
fn push_file(out: &mut String, file: &Entry) -> Result<(), AllocError> {
    let path = file.path.text();
    out.push_str(path.strip_prefix("var/db/pkg/").unwrap_or(path))?;
    out.push_str("=")?;
    for byte in &file.object.bytes {
        out.push(char::from(*byte))?;
    }
    Ok(())
}

fn push_files(out: &mut String, files: &[Entry]) -> Result<(), AllocError> {
    let mut between = "";
    for file in files {
        out.push_str(between)?;
        push_file(out, file)?;
        between = "\t";
    }
    Ok(())
}

fn push_written(alloc: Global, out: &mut String, package: &Installed) -> Result<(), AllocError> {
    let files = folder_files(alloc, package)?;
    push_files(out, &files)
}

fn push_recorded(alloc: Global, out: &mut String, package: &Installed) -> Result<(), AllocError> {
    let flags = recorded_flags(alloc, &package.pkg.facts)?;
    push_flags(out, &flags)
}

fn packages(alloc: Global, parts: &str) -> Option<Vec<Installed>> {
    let mut tree = tree_of(alloc, parts)?;
    read_database(alloc, &mut tree).ok()
}

/// What the first package needs and asks of its flags, and its flags.
pub(crate) fn record(alloc: Global, parts: &str) -> Option<String> {
    let packages = packages(alloc, parts)?;
    let mut out = String::new(alloc);
    push_record(alloc, &mut out, &packages.first()?.pkg).ok()?;
    Some(out)
}

/// The files that are written of the first package.
pub(crate) fn written(alloc: Global, parts: &str) -> Option<String> {
    let packages = packages(alloc, parts)?;
    let mut out = String::new(alloc);
    push_written(alloc, &mut out, packages.first()?).ok()?;
    Some(out)
}

/// The flags that are recorded of the first package.
pub(crate) fn flags(alloc: Global, parts: &str) -> Option<String> {
    let packages = packages(alloc, parts)?;
    let mut out = String::new(alloc);
    push_recorded(alloc, &mut out, packages.first()?).ok()?;
    Some(out)
}
