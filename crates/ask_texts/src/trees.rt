//! Dependency trees: read, printed, their truth, and their leaves.

use crate::atoms::facts;
use crate::{cut, yes_or_no};
use dep_atom::{AtomFault, Facts};
use dep_group::push_word;
use dep_tree::{DepTree, TreeTextFault};
use pms_names::Flags;
use std::alloc::{AllocError, Global};
use use_flags::Iuse;

/// The tree of a text.
fn read(alloc: Global, text: &str, empty_holds: bool) -> Result<DepTree, TreeTextFault> {
    DepTree::parse(alloc, text, empty_holds)
}

/// The copy of a dependency tree as it is printed.
pub(crate) fn depend(alloc: Global, text: &str) -> Result<String, AllocError> {
    match read(alloc, text, false) {
        Ok(tree) => copy_text(alloc, &tree),
        Err(fault) => fault.to_string(alloc),
    }
}

fn copy_text(alloc: Global, tree: &DepTree) -> Result<String, AllocError> {
    let copy = tree.try_clone()?;
    copy.print(alloc)
}

/// Whether the tree of the last field holds, for an asker with the flags of the first one, with the
/// packages of the second one: `a | d-1 e-2 | a? ( c/d )`.
pub(crate) fn truth(alloc: Global, fields: &str, empty_holds: bool) -> Result<String, AllocError> {
    let (asker, rest) = cut(fields);
    let (packages, text) = cut(rest);
    match read(alloc, text, empty_holds) {
        Ok(tree) => truth_of(alloc, &tree, packages, asker),
        Err(fault) => fault.to_string(alloc),
    }
}

fn truth_of(
    alloc: Global,
    tree: &DepTree,
    packages: &str,
    asker: &str,
) -> Result<String, AllocError> {
    match packages_of(alloc, packages) {
        Ok(there) => truth_with(alloc, tree, &there, asker),
        Err(fault) => fault.to_string(alloc),
    }
}

fn truth_with(
    alloc: Global,
    tree: &DepTree,
    there: &Vec<Facts>,
    asker: &str,
) -> Result<String, AllocError> {
    match Iuse::parse(alloc, asker) {
        Ok(asker) => yes_or_no(alloc, tree.holds(there, &asker.flags)),
        Err(fault) => fault.to_string(alloc),
    }
}

fn packages_of(alloc: Global, text: &str) -> Result<Vec<Facts>, AtomFault> {
    let mut packages = Vec::new(alloc);
    for word in text.split_whitespace() {
        packages.push(facts(alloc, word, "")?)?;
    }
    Ok(packages)
}

/// The leaves of a tree that count for an asker with the flags of the first field.
pub(crate) fn leaves(alloc: Global, fields: &str) -> Result<String, AllocError> {
    let (asker, text) = cut(fields);
    match read(alloc, text, false) {
        Ok(tree) => leaves_for(alloc, &tree, asker),
        Err(fault) => fault.to_string(alloc),
    }
}

fn leaves_for(alloc: Global, tree: &DepTree, asker: &str) -> Result<String, AllocError> {
    match Iuse::parse(alloc, asker) {
        Ok(asker) => leaves_text(alloc, tree, &asker.flags),
        Err(fault) => fault.to_string(alloc),
    }
}

fn leaves_text(alloc: Global, tree: &DepTree, asker: &Flags) -> Result<String, AllocError> {
    let mut told = String::new(alloc);
    for atom in tree.leaves(alloc, asker)? {
        let text = atom.print(alloc)?;
        push_word(&mut told, "", text.as_str(), "")?;
    }
    Ok(told)
}
