//! Numbers, packages and what is missing, as texts.

use dep_atom::{Atom, PackageId};
use pkg_state::Broken;
use std::alloc::{AllocError, Global};

/// Adds a space, and the number.
pub(crate) fn push_number(
    alloc: Global,
    out: &mut String,
    number: usize,
) -> Result<(), AllocError> {
    let text = format!(in alloc; " {number}")?;
    out.push_str(text.as_str())
}

/// Adds the package as `NAME-VERSION`.
pub(crate) fn push_id(out: &mut String, package: &PackageId) -> Result<(), AllocError> {
    out.push_str(package.name.package.text())?;
    out.push_str("-")?;
    out.push_str(package.version.text())
}

/// Adds a space, and the leaf, or a hyphen where there is none.
pub(crate) fn push_leaf(
    alloc: Global,
    out: &mut String,
    leaf: &Option<Atom>,
) -> Result<(), AllocError> {
    match leaf {
        Some(leaf) => {
            out.push_str(" ")?;
            let text = leaf.print(alloc)?;
            out.push_str(text.as_str())
        }
        None => out.push_str(" -"),
    }
}

/// Adds a rule, and a package.
pub(crate) fn push_one(
    out: &mut String,
    rule: &str,
    package: &PackageId,
) -> Result<(), AllocError> {
    out.push_str(rule)?;
    out.push_str(" ")?;
    push_id(out, package)
}

/// Adds a rule, and two packages.
pub(crate) fn push_two(
    out: &mut String,
    rule: &str,
    package: &PackageId,
    other: &PackageId,
) -> Result<(), AllocError> {
    push_one(out, rule, package)?;
    out.push_str(" ")?;
    push_id(out, other)
}

/// Adds a rule, a package, and what it lacks.
pub(crate) fn push_lack(
    alloc: Global,
    out: &mut String,
    rule: &str,
    package: &PackageId,
    leaf: &Option<Atom>,
) -> Result<(), AllocError> {
    push_one(out, rule, package)?;
    push_leaf(alloc, out, leaf)
}

/// Adds what is wrong with the packages that are there at the beginning.
pub(crate) fn push_broken(
    alloc: Global,
    out: &mut String,
    broken: &Broken,
) -> Result<(), AllocError> {
    match broken {
        Broken::Runtime { package, leaf } => push_lack(alloc, out, "opening lacks", package, leaf),
        Broken::Blocked { package, by } => push_two(out, "opening blocks", package, by),
        Broken::RequiredUse { package } => push_one(out, "opening flags", package),
        Broken::SlotTwice { package, other } => push_two(out, "opening twice", package, other),
        Broken::Memory => out.push_str("memory"),
    }
}
