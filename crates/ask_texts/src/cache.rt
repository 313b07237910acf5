//! The entries of the repository's cache.

use crate::records::push_flags;
use dep_atom::{Facts, PackageId};
use md5_cache::{
    CacheEntry, CacheFault, FieldFault, Pair, PairFault, check_fields, pairs, read_entry,
};
use pkg_state::{Class, Pkg};
use std::alloc::{AllocError, Global};

/// The bytes of the ebuild that entries are of.
const EBUILD: &[u8] = b"abc";

/// The pairs of an entry's lines.
pub(crate) fn pair_list(alloc: Global, bytes: &[u8]) -> Result<String, AllocError> {
    match pairs(alloc, bytes) {
        Ok(pairs) => pairs_text(alloc, pairs.as_slice()),
        Err(fault) => pair_fault(alloc, fault),
    }
}

fn pairs_text(alloc: Global, pairs: &[Pair]) -> Result<String, AllocError> {
    let mut told = String::new(alloc);
    for pair in pairs {
        told.push_str(pair.key.as_str())?;
        told.push(':')?;
        told.push_str(pair.value.as_str())?;
        told.push('|')?;
    }
    Ok(told)
}

fn pair_fault(alloc: Global, fault: PairFault) -> Result<String, AllocError> {
    match fault {
        PairFault::Repeated { key } => format!(in alloc; "{} twice", key.as_str()),
        fault => fault.to_string(alloc),
    }
}

/// The edition of an entry that is in form; else the first field that isn't, or the text of EAPI where
/// that is none which is read.
pub(crate) fn fields(alloc: Global, bytes: &[u8]) -> Result<String, AllocError> {
    match pairs(alloc, bytes) {
        Ok(pairs) => check(alloc, pairs.as_slice()),
        Err(fault) => pair_fault(alloc, fault),
    }
}

fn check(alloc: Global, pairs: &[Pair]) -> Result<String, AllocError> {
    match check_fields(alloc, pairs) {
        Ok(edition) => format!(in alloc; "in form of {}", edition.text()),
        Err(FieldFault::Eapi { text }) => format!(in alloc; "edition {}", text.as_str()),
        Err(FieldFault::Field { key }) => format!(in alloc; "field {}", key.as_str()),
        Err(FieldFault::Memory) => Err(AllocError),
    }
}

/// What an entry of the package c/p-1 says, whose ebuild is `abc`.
pub(crate) fn entry(alloc: Global, bytes: &[u8]) -> Result<String, AllocError> {
    match PackageId::parse(alloc, "c", "p-1") {
        Ok(id) => entry_of(alloc, id, bytes),
        Err(fault) => fault.to_string(alloc),
    }
}

fn entry_of(alloc: Global, id: PackageId, bytes: &[u8]) -> Result<String, AllocError> {
    match read_entry(alloc, id, bytes, EBUILD) {
        Ok(entry) => entry_text(alloc, &entry),
        Err(fault) => entry_fault(alloc, fault),
    }
}

fn entry_text(alloc: Global, entry: &CacheEntry) -> Result<String, AllocError> {
    let mut told = String::new(alloc);
    push_facts(&mut told, &entry.pkg.facts)?;
    told.push_str("; ")?;
    push_flags(&mut told, &entry.iuse_on)?;
    told.push_str("; ")?;
    for keyword in &entry.keywords {
        told.push_str(keyword.as_str())?;
        told.push(' ')?;
    }
    push_needs(alloc, &mut told, &entry.pkg)?;
    Ok(told)
}

fn push_facts(told: &mut String, facts: &Facts) -> Result<(), AllocError> {
    told.push_str(facts.slot.text())?;
    told.push('/')?;
    told.push_str(facts.subslot.text())?;
    told.push(' ')?;
    push_flags(told, &facts.iuse)
}

fn push_needs(alloc: Global, told: &mut String, pkg: &Pkg) -> Result<(), AllocError> {
    for class in [
        Class::Rdepend,
        Class::Pdepend,
        Class::Depend,
        Class::Bdepend,
        Class::Idepend,
    ] {
        told.push_str("; ")?;
        told.push_str(pkg.tree(class).print(alloc)?.as_str())?;
    }
    told.push_str("; ")?;
    told.push_str(pkg.required_use.print(alloc)?.as_str())
}

fn entry_fault(alloc: Global, fault: CacheFault) -> Result<String, AllocError> {
    match fault {
        CacheFault::Repeated { key } => format!(in alloc; "{} twice", key.as_str()),
        CacheFault::Eapi { text } => format!(in alloc; "edition {}", text.as_str()),
        CacheFault::Field { key } => format!(in alloc; "field {}", key.as_str()),
        CacheFault::Stale { recorded, found } => stale(alloc, &recorded, &found),
        fault => fault.to_string(alloc),
    }
}

fn stale(alloc: Global, recorded: &[u8], found: &[u8]) -> Result<String, AllocError> {
    let recorded = hex::encode(alloc, recorded)?;
    let found = hex::encode(alloc, found)?;
    format!(in alloc; "stale: {}, not {}", recorded.as_str(), found.as_str())
}
