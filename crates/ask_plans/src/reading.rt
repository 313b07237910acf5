//! Packages from short texts.
//!
//! A package is `NAME-VERSION:SLOT/SUBSLOT` of the category `c`, and behind semicolons its flags,
//! those of them that are on, what it depends on and what it asks of its flags, as `IUSE x y`,
//! `USE x`, `RDEPEND c/p` and `REQUIRED_USE x`. Slots that aren't written are `0`, and the edition
//! is 8 where no other is, as `EAPI 6`.

use dep_atom::{Facts, PackageId};
use dep_tree::DepTree;
use pkg_state::{Eapi, Pkg};
use pms_names::{Flag, Flags, SlotName};
use required_use::RequiredUse;
use std::alloc::Global;

const CLASSES: [&str; 5] = ["RDEPEND", "PDEPEND", "DEPEND", "BDEPEND", "IDEPEND"];

/// What stands behind the word, in one of the parts that semicolons separate.
fn part<'a>(text: &'a str, word: &str) -> &'a str {
    for part in text.split(';') {
        if let Some((first, rest)) = part.split_once(' ') {
            if first == word {
                return rest;
            }
        }
    }
    ""
}

/// The name and version, the slot and the subslot.
fn head_of(text: &str) -> (&str, &str, &str) {
    let (head, _) = text.split_once(';').unwrap_or((text, ""));
    let (pf, slots) = head.split_once(':').unwrap_or((head, "0"));
    let (slot, subslot) = slots.split_once('/').unwrap_or((slots, "0"));
    (pf, slot, subslot)
}

fn flags(alloc: Global, text: &str) -> Option<Flags> {
    let mut flags = Flags::new(alloc);
    for word in text.split_whitespace() {
        flags.insert(Flag::parse(alloc, word).ok()?).ok()?;
    }
    Some(flags)
}

fn facts_with(alloc: Global, text: &str, id: PackageId) -> Option<Facts> {
    let (_, slot, subslot) = head_of(text);
    let slot = SlotName::parse(alloc, slot).ok()?;
    let subslot = SlotName::parse(alloc, subslot).ok()?;
    let iuse = flags(alloc, part(text, "IUSE"))?;
    let enabled = flags(alloc, part(text, "USE"))?;
    Some(Facts {
        id,
        slot,
        subslot,
        iuse,
        enabled,
    })
}

fn facts(alloc: Global, text: &str) -> Option<Facts> {
    let (pf, _, _) = head_of(text);
    facts_with(alloc, text, PackageId::parse(alloc, "c", pf).ok()?)
}

/// The edition, if it is one that is read.
fn edition(text: &str) -> Option<Eapi> {
    match part(text, "EAPI") {
        "" => Some(Eapi::Eight),
        text => Eapi::from_text(text),
    }
}

/// Whether what the package depends on and asks of its flags is in form.
fn has_trees(alloc: Global, text: &str) -> bool {
    for class in CLASSES {
        if DepTree::parse(alloc, part(text, class), false).is_err() {
            return false;
        }
    }
    RequiredUse::parse(alloc, part(text, "REQUIRED_USE"), false).is_ok()
}

/// What the package depends on in this class; nothing where that isn't in form.
fn tree(alloc: Global, text: &str, class: &str, empty_holds: bool) -> DepTree {
    match DepTree::parse(alloc, part(text, class), empty_holds) {
        Ok(tree) => tree,
        Err(_) => DepTree::new(alloc, empty_holds),
    }
}

fn required(alloc: Global, text: &str, empty_holds: bool) -> RequiredUse {
    match RequiredUse::parse(alloc, part(text, "REQUIRED_USE"), empty_holds) {
        Ok(required) => required,
        Err(_) => RequiredUse::new(alloc, empty_holds),
    }
}

fn package_with(alloc: Global, facts: Facts, eapi: Eapi, text: &str) -> Pkg {
    let empty_holds = eapi.empty_holds();
    Pkg {
        facts,
        eapi,
        rdepend: tree(alloc, text, "RDEPEND", empty_holds),
        pdepend: tree(alloc, text, "PDEPEND", empty_holds),
        depend: tree(alloc, text, "DEPEND", empty_holds),
        bdepend: tree(alloc, text, "BDEPEND", empty_holds),
        idepend: tree(alloc, text, "IDEPEND", empty_holds),
        required_use: required(alloc, text, empty_holds),
    }
}

/// The package of a text.
pub(crate) fn package(alloc: Global, text: &str) -> Option<Pkg> {
    if !has_trees(alloc, text) {
        return None;
    }
    let eapi = edition(text)?;
    let facts = facts(alloc, text)?;
    Some(package_with(alloc, facts, eapi, text))
}

/// The packages of a text, a comma between two.
pub(crate) fn packages(alloc: Global, text: &str) -> Option<Vec<Pkg>> {
    let mut all = Vec::new(alloc);
    for text in text.split(',') {
        if !text.is_empty() {
            all.push(package(alloc, text)?).ok()?;
        }
    }
    Some(all)
}
