//! Universes from short texts.
//!
//! HOW is `update` or `keep`, and WANTED atoms, a space between two. A line is its variants, a
//! comma between two; where one is installed it stands before them, behind `+`.

use crate::reading::{package, packages};
use ask_lines::cut;
use choice_tree::{Offer, Universe};
use dep_atom::Atom;
use pkg_state::Pkg;
use std::alloc::Global;

fn held(alloc: Global, installed: Pkg, variants: &str) -> Option<Offer> {
    let variants = packages(alloc, variants)?;
    let installed = Some(installed);
    Some(Offer {
        installed,
        variants,
    })
}

fn free(alloc: Global, variants: &str) -> Option<Offer> {
    let variants = packages(alloc, variants)?;
    Some(Offer {
        installed: None,
        variants,
    })
}

fn offer(alloc: Global, text: &str) -> Option<Offer> {
    let Some(text) = text.strip_prefix("+") else {
        return free(alloc, text);
    };
    let (first, variants) = text.split_once(',').unwrap_or((text, ""));
    let installed = package(alloc, first)?;
    held(alloc, installed, variants)
}

fn offers(alloc: Global, text: &str) -> Option<Vec<Offer>> {
    let mut all = Vec::new(alloc);
    for part in text.split('\t') {
        all.push(offer(alloc, part)?).ok()?;
    }
    Some(all)
}

/// The atoms of a text, white space between two.
pub(crate) fn atoms(alloc: Global, text: &str) -> Option<Vec<Atom>> {
    let mut all = Vec::new(alloc);
    for word in text.split_whitespace() {
        all.push(Atom::parse(alloc, word).ok()?).ok()?;
    }
    Some(all)
}

/// The universe of the wanted atoms and the lines.
pub(crate) fn universe(alloc: Global, update: bool, parts: &str) -> Option<Universe> {
    let (wanted, lines) = cut(parts, '\t');
    let wanted = atoms(alloc, wanted)?;
    let offers = offers(alloc, lines)?;
    Some(Universe {
        offers,
        wanted,
        update,
    })
}
