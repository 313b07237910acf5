//! Packages and atoms: read, printed, matched and bound.

use crate::{cut, yes_or_no};
use dep_atom::{Atom, AtomFault, Bind, Facts, PackageId};
use pms_slot::SlotValue;
use std::alloc::{AllocError, Global};
use use_flags::{Iuse, UseFault};

/// The atom's copy as it is printed.
pub(crate) fn atom(alloc: Global, text: &str) -> Result<String, AllocError> {
    match Atom::parse(alloc, text) {
        Ok(atom) => copy_text(alloc, &atom),
        Err(fault) => fault.to_string(alloc),
    }
}

fn copy_text(alloc: Global, atom: &Atom) -> Result<String, AllocError> {
    let copy = atom.try_clone()?;
    copy.print(alloc)
}

/// The package of a category, and of its name and version: `c | p-1`.
pub(crate) fn id(alloc: Global, fields: &str) -> Result<String, AllocError> {
    let (category, pf) = cut(fields);
    match PackageId::parse(alloc, category, pf) {
        Ok(id) => id_text(alloc, &id),
        Err(fault) => fault.to_string(alloc),
    }
}

fn id_text(alloc: Global, id: &PackageId) -> Result<String, AllocError> {
    let copy = id.try_clone()?;
    copy.print(alloc)
}

/// Whether the atom matches a package of the category c, for an asker with the flags of the last
/// field: `c/p[x=] | p-1:0/2 | +x -y | x`. The third field has the package's flags, a plus before
/// each that is on.
pub(crate) fn matched(alloc: Global, fields: &str) -> Result<String, AllocError> {
    let (atom, target) = cut(fields);
    match Atom::parse(alloc, atom) {
        Ok(atom) => matched_by(alloc, &atom, target),
        Err(fault) => fault.to_string(alloc),
    }
}

fn matched_by(alloc: Global, atom: &Atom, fields: &str) -> Result<String, AllocError> {
    let (package, flags) = cut(fields);
    let (iuse, asker) = cut(flags);
    match facts(alloc, package, iuse) {
        Ok(target) => accepted(alloc, atom, &target, asker),
        Err(fault) => fault.to_string(alloc),
    }
}

fn accepted(alloc: Global, atom: &Atom, target: &Facts, asker: &str) -> Result<String, AllocError> {
    match Iuse::parse(alloc, asker) {
        Ok(asker) => yes_or_no(alloc, atom.matches(target, &asker.flags)),
        Err(fault) => fault.to_string(alloc),
    }
}

/// The package of the category c, whose slot and subslot stand behind a colon, or are 0.
pub(crate) fn facts(alloc: Global, text: &str, iuse: &str) -> Result<Facts, AtomFault> {
    let (pf, slots) = text.split_once(':').unwrap_or((text, "0"));
    let slots = bind(alloc, slots)?;
    with_flags(alloc, pf, slots, iuse)
}

fn bind(alloc: Global, slots: &str) -> Result<Bind, AtomFault> {
    match SlotValue::read(alloc, slots.as_bytes())? {
        Some(SlotValue { slot, subslot }) => Ok(Bind { slot, subslot }),
        None => Err(AtomFault::BadSlot),
    }
}

fn with_flags(alloc: Global, pf: &str, slots: Bind, iuse: &str) -> Result<Facts, AtomFault> {
    match Iuse::parse(alloc, iuse) {
        Ok(iuse) => with_id(alloc, pf, slots, iuse),
        Err(UseFault::Item { at }) => Err(AtomFault::BadUse { at }),
        Err(UseFault::Memory) => Err(AtomFault::Memory),
    }
}

fn with_id(alloc: Global, pf: &str, slots: Bind, iuse: Iuse) -> Result<Facts, AtomFault> {
    match PackageId::parse(alloc, "c", pf) {
        Ok(id) => Ok(joined(id, slots, iuse)),
        Err(fault) => Err(fault),
    }
}

fn joined(id: PackageId, slots: Bind, iuse: Iuse) -> Facts {
    Facts {
        id,
        slot: slots.slot,
        subslot: slots.subslot,
        iuse: iuse.flags,
        enabled: iuse.on,
    }
}

/// The atom bound to a slot and a subslot: `c/d:= | 0/74`.
pub(crate) fn bound(alloc: Global, fields: &str) -> Result<String, AllocError> {
    let (atom, slots) = cut(fields);
    match Atom::parse(alloc, atom) {
        Ok(atom) => bound_to(alloc, &atom, slots),
        Err(fault) => fault.to_string(alloc),
    }
}

fn bound_to(alloc: Global, atom: &Atom, slots: &str) -> Result<String, AllocError> {
    match bind(alloc, slots) {
        Ok(to) => bound_text(alloc, atom, &to),
        Err(fault) => fault.to_string(alloc),
    }
}

fn bound_text(alloc: Global, atom: &Atom, to: &Bind) -> Result<String, AllocError> {
    let bound = atom.bind(to)?;
    bound.print(alloc)
}
