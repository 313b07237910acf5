use crate::packages::push_conflict;
use crate::telling::say;
use dep_atom::{Atom, Bind, PackageId};
use pkg_state::Class;
use plan_rules::PlanRefused;
use std::alloc::{AllocError, Global};

/// What stands for a group that isn't one of the plan.
const GROUPS: &str =
    "groups count from 1 as in the plan, and 0 is what is installed; nothing was merged";

/// Which rule a plan breaks, and what to do.
pub(crate) fn push_refused(
    alloc: Global,
    lines: &mut Vec<String>,
    fault: &PlanRefused,
) -> Result<(), AllocError> {
    say(
        alloc,
        lines,
        "the plan was checked before anything was changed, and is refused:",
    )?;
    push_rule(alloc, lines, fault)?;
    push_help(alloc, lines, fault)?;
    say(alloc, lines, GROUPS)
}

/// Which rule a plan breaks.
pub(crate) fn push_rule(
    alloc: Global,
    lines: &mut Vec<String>,
    fault: &PlanRefused,
) -> Result<(), AllocError> {
    match fault {
        PlanRefused::Line { line, group, other } => {
            let line = line.text();
            lines.push(format!(in alloc;
                "groups {group} and {other} both change {line}, and neither waits for the other"
            )?)?;
            Ok(())
        }
        PlanRefused::Absent { group, package } => {
            let id = package.print(alloc)?;
            lines.push(format!(in alloc; "group {group} removes {id}, which isn't there then")?)?;
            Ok(())
        }
        PlanRefused::Occupied {
            group,
            package,
            other,
        } => push_occupied(alloc, lines, *group, package, other),
        PlanRefused::Opening(broken) => push_conflict(alloc, lines, broken),
        other => push_addition_rule(alloc, lines, other),
    }
}

/// The rules on the flags and the binds of what is added.
fn push_addition_rule(
    alloc: Global,
    lines: &mut Vec<String>,
    fault: &PlanRefused,
) -> Result<(), AllocError> {
    match fault {
        PlanRefused::RequiredUse { package } => {
            let id = package.print(alloc)?;
            lines.push(format!(in alloc;
                "the USE flags that the plan gives {id} don't go together (REQUIRED_USE)"
            )?)?;
            Ok(())
        }
        PlanRefused::Binding {
            package,
            leaf,
            found,
        } => push_binding(alloc, lines, package, leaf, found),
        other => push_need_rule(alloc, lines, other),
    }
}

fn push_occupied(
    alloc: Global,
    lines: &mut Vec<String>,
    group: usize,
    package: &PackageId,
    other: &PackageId,
) -> Result<(), AllocError> {
    let id = package.print(alloc)?;
    let other = other.print(alloc)?;
    lines.push(format!(in alloc; "group {group} adds {id}, in whose place {other} stands")?)?;
    Ok(())
}

fn push_binding(
    alloc: Global,
    lines: &mut Vec<String>,
    package: &PackageId,
    leaf: &Option<Atom>,
    found: &Option<Bind>,
) -> Result<(), AllocError> {
    let id = package.print(alloc)?;
    let need = need_text(alloc, leaf)?;
    lines.push(format!(in alloc; "{id} is added with {need}, whose `:=` asks for a line `bind`")?)?;
    match found {
        Some(bind) => {
            let slot = bind.slot.text();
            let subslot = bind.subslot.text();
            lines.push(format!(in alloc;
                "`bind {slot}/{subslot}` isn't the slot of the greatest version that stands beside it"
            )?)?;
            Ok(())
        }
        None => say(alloc, lines, "and none stands there"),
    }
}

/// The rules on what a package needs or keeps out.
fn push_need_rule(
    alloc: Global,
    lines: &mut Vec<String>,
    fault: &PlanRefused,
) -> Result<(), AllocError> {
    match fault {
        PlanRefused::Unsatisfied {
            group,
            package,
            class,
            leaf,
        } => push_missing(alloc, lines, *group, package, *class, leaf),
        PlanRefused::Unsafe {
            package,
            class,
            leaf,
            meeting,
        } => push_unsafe(alloc, lines, package, *class, leaf, meeting),
        PlanRefused::Blocked { package, other } | PlanRefused::Barred { package, other, .. } => {
            push_block(alloc, lines, package, other)
        }
        PlanRefused::Build {
            group,
            package,
            class,
            leaf,
        } => push_build(alloc, lines, *group, package, *class, leaf),
        PlanRefused::Final { package, leaf } => {
            let id = package.print(alloc)?;
            let need = need_text(alloc, leaf)?;
            lines.push(format!(in alloc;
                "{id} wants {need} some time after it came (PDEPEND), and at the end it isn't there"
            )?)?;
            Ok(())
        }
        _ => Err(AllocError),
    }
}

fn push_missing(
    alloc: Global,
    lines: &mut Vec<String>,
    group: usize,
    package: &PackageId,
    class: Class,
    leaf: &Option<Atom>,
) -> Result<(), AllocError> {
    let id = package.print(alloc)?;
    let need = need_text(alloc, leaf)?;
    let class = class.word();
    lines.push(format!(in alloc;
        "{id} of group {group} needs {need} to run ({class}), which isn't there, or not all the time"
    )?)?;
    Ok(())
}

fn push_unsafe(
    alloc: Global,
    lines: &mut Vec<String>,
    package: &PackageId,
    class: Class,
    leaf: &Option<Atom>,
    meeting: &[usize],
) -> Result<(), AllocError> {
    let id = package.print(alloc)?;
    let need = need_text(alloc, leaf)?;
    let class = class.word();
    lines.push(format!(in alloc;
        "{id} needs {need} to run ({class}), and in some order of the groups it is missing"
    )?)?;
    let mut which = String::from_str(alloc, "the groups that change it in between:")?;
    for group in meeting {
        push_number(alloc, &mut which, *group)?;
    }
    lines.push(which)?;
    Ok(())
}

fn push_number(alloc: Global, text: &mut String, number: usize) -> Result<(), AllocError> {
    let word = format!(in alloc; " {number}")?;
    text.push_str(word.as_str())
}

fn push_block(
    alloc: Global,
    lines: &mut Vec<String>,
    package: &PackageId,
    other: &PackageId,
) -> Result<(), AllocError> {
    let id = package.print(alloc)?;
    let other = other.print(alloc)?;
    lines.push(format!(in alloc;
        "{id} may not be there together with {other} (a block), and in some order it is"
    )?)?;
    Ok(())
}

fn push_build(
    alloc: Global,
    lines: &mut Vec<String>,
    group: usize,
    package: &PackageId,
    class: Class,
    leaf: &Option<Atom>,
) -> Result<(), AllocError> {
    let id = package.print(alloc)?;
    let need = need_text(alloc, leaf)?;
    let class = class.word();
    lines.push(format!(in alloc;
        "{id} of group {group} wants {need} for its build ({class}), which may be missing then"
    )?)?;
    Ok(())
}

/// What to do in a plan that breaks a rule.
fn push_help(
    alloc: Global,
    lines: &mut Vec<String>,
    fault: &PlanRefused,
) -> Result<(), AllocError> {
    match fault {
        PlanRefused::Occupied { other, .. } => {
            let other = other.print(alloc)?;
            lines.push(format!(in alloc;
                "remove {other} in the same group, or add one of both alone"
            )?)?;
            Ok(())
        }
        PlanRefused::Blocked { package, other } | PlanRefused::Barred { package, other, .. } => {
            push_wait(alloc, lines, package, other)
        }
        other => say(alloc, lines, help_for(other)),
    }
}

/// The package that comes is to wait for the one that goes.
fn push_wait(
    alloc: Global,
    lines: &mut Vec<String>,
    package: &PackageId,
    other: &PackageId,
) -> Result<(), AllocError> {
    let id = package.print(alloc)?;
    let other = other.print(alloc)?;
    lines.push(format!(in alloc;
        "let the group that adds {id} wait for one that removes {other}, by a line `after`"
    )?)?;
    Ok(())
}

/// What to do in a plan that breaks a rule whose help names no package.
fn help_for(fault: &PlanRefused) -> &'static str {
    match fault {
        PlanRefused::Line { .. } => {
            "let the later one wait, by a line `after` with the earlier one's number"
        }
        PlanRefused::Absent { .. } => "take that line out, or name the version that is there",
        PlanRefused::Opening(_) => "repair the system first",
        PlanRefused::RequiredUse { .. } => "put a flag on or off behind it on its line",
        PlanRefused::Binding { .. } => {
            "write slot/subslot of the version that is there behind the group"
        }
        PlanRefused::Unsatisfied { .. } => {
            "bring what it needs in that group or one that it waits for, or remove the package, too"
        }
        PlanRefused::Unsafe { .. } => {
            "let one wait for the other by a line `after`, or make them one group"
        }
        PlanRefused::Build { .. } => {
            "add it in a group before, for which that group waits by a line `after`"
        }
        PlanRefused::Final { .. } => "add it in any group",
        _ => "correct the plan",
    }
}

/// What a package needs, or that none of several packages will do.
fn need_text(alloc: Global, leaf: &Option<Atom>) -> Result<String, AllocError> {
    match leaf {
        Some(atom) => atom.print(alloc),
        None => String::from_str(alloc, "one of several packages"),
    }
}
