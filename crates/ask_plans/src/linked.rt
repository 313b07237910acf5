//! Plans as texts, and why a text is none.
//!
//! A group is the places that it waits for in brackets, then what goes as `,-NAME-VERSION:SLOT` and
//! what comes as `,+NAME-VERSION:SLOT/SUBSLOT`, with the flags that are on and what it depends on.

use crate::answers::{push_id, push_number};
use crate::refused::push_one_in;
use choice_tree::CLASSES;
use pkg_state::{Class, Pkg};
use plan_lives::{Group, Plan, Removal};
use plan_model::LinkFault;
use pms_names::Flags;
use std::alloc::{AllocError, Global};

/// Adds what the package depends on in this class, as `;RDEPEND c/p`.
fn push_need(alloc: Global, out: &mut String, pkg: &Pkg, class: Class) -> Result<(), AllocError> {
    let needs = pkg.tree(class).print(alloc)?;
    if needs.is_empty() {
        return Ok(());
    }
    out.push_str(";")?;
    out.push_str(class.word())?;
    out.push_str(" ")?;
    out.push_str(needs.as_str())
}

fn push_needs(alloc: Global, out: &mut String, pkg: &Pkg) -> Result<(), AllocError> {
    for class in CLASSES {
        push_need(alloc, out, pkg, class)?;
    }
    Ok(())
}

fn push_flags(out: &mut String, flags: &Flags) -> Result<(), AllocError> {
    for flag in flags.list() {
        out.push_str(" ")?;
        out.push_str(flag.text())?;
    }
    Ok(())
}

fn push_slots(out: &mut String, pkg: &Pkg) -> Result<(), AllocError> {
    out.push_str(":")?;
    out.push_str(pkg.facts.slot.text())?;
    out.push_str("/")?;
    out.push_str(pkg.facts.subslot.text())
}

/// Adds the package as `NAME-VERSION:SLOT/SUBSLOT`, with its flags and what it depends on.
pub(crate) fn push_package(alloc: Global, out: &mut String, pkg: &Pkg) -> Result<(), AllocError> {
    push_id(out, &pkg.facts.id)?;
    push_slots(out, pkg)?;
    push_flags(out, &pkg.facts.enabled)?;
    push_needs(alloc, out, pkg)
}

fn push_addition(alloc: Global, out: &mut String, pkg: &Pkg) -> Result<(), AllocError> {
    out.push_str(",+")?;
    push_package(alloc, out, pkg)
}

fn push_removal(out: &mut String, removal: &Removal) -> Result<(), AllocError> {
    out.push_str(",-")?;
    push_id(out, &removal.id)?;
    out.push_str(":")?;
    out.push_str(removal.slot.text())
}

fn push_after(alloc: Global, out: &mut String, group: &Group) -> Result<(), AllocError> {
    out.push_str("[")?;
    for place in &group.after {
        push_number(alloc, out, *place)?;
    }
    out.push_str(" ]")
}

fn push_group(alloc: Global, out: &mut String, group: &Group) -> Result<(), AllocError> {
    push_after(alloc, out, group)?;
    for removal in &group.removals {
        push_removal(out, removal)?;
    }
    for pkg in &group.additions {
        push_addition(alloc, out, pkg)?;
    }
    Ok(())
}

/// The groups of a plan.
pub(crate) fn plan_text(alloc: Global, plan: Plan) -> Option<String> {
    let mut out = String::new(alloc);
    for group in plan.groups() {
        push_group(alloc, &mut out, group).ok()?;
    }
    Some(out)
}

fn push_fault(alloc: Global, out: &mut String, fault: &LinkFault) -> Result<(), AllocError> {
    match fault {
        LinkFault::NoCandidate { group, package } => {
            push_one_in(alloc, out, "none", *group, package)
        }
        LinkFault::BadFlag {
            group,
            package,
            flag,
        } => {
            push_one_in(alloc, out, "flag", *group, package)?;
            out.push_str(" ")?;
            out.push_str(flag.text())
        }
        LinkFault::Memory => out.push_str("memory"),
    }
}

/// Which addition stands for no package: its group, its package, and perhaps its flag.
pub(crate) fn fault_text(alloc: Global, fault: LinkFault) -> Option<String> {
    let mut out = String::new(alloc);
    push_fault(alloc, &mut out, &fault).ok()?;
    Some(out)
}
