//! The rules that plans break, as texts: the rule, the number of a group, and packages.

use crate::answers::{push_broken, push_id, push_lack, push_leaf, push_number, push_one, push_two};
use dep_atom::{Atom, Bind, PackageId};
use pkg_state::{Class, LineName};
use plan_rules::PlanRefused;
use std::alloc::{AllocError, Global};

fn push_line(
    alloc: Global,
    out: &mut String,
    line: &LineName,
    group: usize,
    other: usize,
) -> Result<(), AllocError> {
    out.push_str("line ")?;
    out.push_str(line.text())?;
    push_number(alloc, out, group)?;
    push_number(alloc, out, other)
}

/// Adds a rule, the number of a group, and a package.
pub(crate) fn push_one_in(
    alloc: Global,
    out: &mut String,
    rule: &str,
    group: usize,
    package: &PackageId,
) -> Result<(), AllocError> {
    out.push_str(rule)?;
    push_number(alloc, out, group)?;
    out.push_str(" ")?;
    push_id(out, package)
}

fn push_two_in(
    alloc: Global,
    out: &mut String,
    rule: &str,
    group: usize,
    package: &PackageId,
    other: &PackageId,
) -> Result<(), AllocError> {
    push_one_in(alloc, out, rule, group, package)?;
    out.push_str(" ")?;
    push_id(out, other)
}

/// Adds the name of a class, and what is missing in it.
fn push_need(
    alloc: Global,
    out: &mut String,
    class: Class,
    leaf: &Option<Atom>,
) -> Result<(), AllocError> {
    out.push_str(" ")?;
    out.push_str(class.word())?;
    push_leaf(alloc, out, leaf)
}

/// Adds a space, and the bind as `SLOT/SUBSLOT`, or a hyphen where there is none.
fn push_bind(out: &mut String, bind: &Option<Bind>) -> Result<(), AllocError> {
    match bind {
        Some(bind) => {
            out.push_str(" ")?;
            out.push_str(bind.slot.text())?;
            out.push_str("/")?;
            out.push_str(bind.subslot.text())
        }
        None => out.push_str(" -"),
    }
}

/// Adds the groups that change what a package needs.
fn push_groups(alloc: Global, out: &mut String, groups: &[usize]) -> Result<(), AllocError> {
    out.push_str(" groups")?;
    for group in groups {
        push_number(alloc, out, *group)?;
    }
    Ok(())
}

/// Adds what is told in a group, of a package and perhaps another one.
fn push_placed(alloc: Global, out: &mut String, refused: &PlanRefused) -> Result<(), AllocError> {
    match refused {
        PlanRefused::Line { line, group, other } => push_line(alloc, out, line, *group, *other),
        PlanRefused::Absent { group, package } => {
            push_one_in(alloc, out, "absent", *group, package)
        }
        PlanRefused::Occupied {
            group,
            package,
            other,
        } => push_two_in(alloc, out, "occupied", *group, package, other),
        PlanRefused::Barred {
            group,
            package,
            other,
        } => push_two_in(alloc, out, "barred", *group, package, other),
        _ => out.push_str("memory"),
    }
}

/// Adds what is told of a class, and perhaps of groups.
fn push_missing(alloc: Global, out: &mut String, refused: &PlanRefused) -> Result<(), AllocError> {
    match refused {
        PlanRefused::Unsatisfied {
            group,
            package,
            class,
            leaf,
        } => {
            push_one_in(alloc, out, "unsatisfied", *group, package)?;
            push_need(alloc, out, *class, leaf)
        }
        PlanRefused::Unsafe {
            package,
            class,
            leaf,
            meeting,
        } => {
            push_one(out, "unsafe", package)?;
            push_need(alloc, out, *class, leaf)?;
            push_groups(alloc, out, meeting)
        }
        PlanRefused::Build {
            group,
            package,
            class,
            leaf,
        } => {
            push_one_in(alloc, out, "build", *group, package)?;
            push_need(alloc, out, *class, leaf)
        }
        _ => push_placed(alloc, out, refused),
    }
}

/// Adds the rule that is broken, with its fields.
pub(crate) fn push_refused(
    alloc: Global,
    out: &mut String,
    refused: &PlanRefused,
) -> Result<(), AllocError> {
    match refused {
        PlanRefused::Opening(broken) => push_broken(alloc, out, broken),
        PlanRefused::RequiredUse { package } => push_one(out, "flags", package),
        PlanRefused::Blocked { package, other } => push_two(out, "blocked", package, other),
        PlanRefused::Final { package, leaf } => push_lack(alloc, out, "final", package, leaf),
        PlanRefused::Binding {
            package,
            leaf,
            found,
        } => {
            push_lack(alloc, out, "binding", package, leaf)?;
            push_bind(out, found)
        }
        _ => push_missing(alloc, out, refused),
    }
}

/// The rule that is broken, with its fields.
pub(crate) fn refused_text(alloc: Global, refused: PlanRefused) -> Option<String> {
    let mut out = String::new(alloc);
    push_refused(alloc, &mut out, &refused).ok()?;
    Some(out)
}
