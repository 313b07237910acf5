//! Universes that are made of what is installed and of candidates.
//!
//! A candidate is its variants, a comma between two. A line of a universe is told in brackets: what
//! is installed there behind `+`, if anything is, and each of its variants behind a comma.

use crate::linked::push_package;
use crate::reading::packages;
use crate::search::resolve_over;
use crate::universes::atoms;
use ask_lines::cut;
use choice_tree::{Offer, Universe};
use choice_universe::{Candidate, make_universe};
use dep_atom::Atom;
use pkg_state::{Pkg, first_twins};
use std::alloc::{AllocError, Global};

fn candidates(alloc: Global, text: &str) -> Option<Vec<Candidate>> {
    let mut all = Vec::new(alloc);
    for part in text.split('\t') {
        let variants = packages(alloc, part)?;
        all.push(Candidate { variants }).ok()?;
    }
    Some(all)
}

/// None where two of the packages are installed on one line.
fn made_over(
    alloc: Global,
    installed: &[Pkg],
    candidates: Vec<Candidate>,
    wanted: Vec<Atom>,
    update: bool,
) -> Option<Universe> {
    match first_twins(alloc, installed).ok()? {
        Some(_) => None,
        None => make_universe(alloc, installed, candidates, wanted, update).ok(),
    }
}

fn made(alloc: Global, wanted: Vec<Atom>, update: bool, parts: &str) -> Option<Universe> {
    let (installed, parts) = cut(parts, '\t');
    let installed = packages(alloc, installed)?;
    let candidates = candidates(alloc, parts)?;
    made_over(alloc, &installed, candidates, wanted, update)
}

fn push_offer(alloc: Global, out: &mut String, offer: &Offer) -> Result<(), AllocError> {
    out.push_str("[")?;
    if let Some(pkg) = &offer.installed {
        out.push_str("+")?;
        push_package(alloc, out, pkg)?;
    }
    for pkg in &offer.variants {
        out.push_str(",")?;
        push_package(alloc, out, pkg)?;
    }
    out.push_str("]")
}

/// The lines of the universe of the installed packages and the candidates.
pub(crate) fn universe_lines(alloc: Global, parts: &str) -> Option<String> {
    let universe = made(alloc, Vec::new(alloc), false, parts)?;
    let mut out = String::new(alloc);
    for offer in &universe.offers {
        push_offer(alloc, &mut out, offer).ok()?;
    }
    Some(out)
}

/// The choice that is found in such a universe, where so many may be tried in vain.
pub(crate) fn choose(alloc: Global, parts: &str) -> Option<String> {
    let (how, parts) = cut(parts, '\t');
    let (limit, parts) = cut(parts, '\t');
    let (wanted, parts) = cut(parts, '\t');
    let limit = limit.parse::<usize>().ok()?;
    let wanted = atoms(alloc, wanted)?;
    let universe = made(alloc, wanted, how == "update", parts)?;
    resolve_over(alloc, &universe, limit).ok()
}
