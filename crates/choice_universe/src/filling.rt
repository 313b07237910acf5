ghost use Rattle.std.specs.Prelude.{◌≡◌, ◌++◌, ◌∷◌, [], List, ℕ, None, OnOk, bytes_eq};
ghost use Rattle.std.specs.Prelude.{if◌then◌else◌};
ghost use Rattle.pkg_state.specs.Consistent.{AreApart};
ghost use Rattle.pkg_state.specs.Package.{Package, line_of};
ghost use Rattle.pkg_state.specs.State.{on_line};
ghost use Rattle.choice_tree.specs.Views.{offer_of};
ghost use Rattle.choice_universe.specs.Filled.{IsFilled, found, offer_found};
ghost use Rattle.choice_universe.specs.Offers.{variants_of};

use crate::candidate::Candidate;
use choice_tree::Offer;
use pkg_state::{LineName, Pkg, copy_package};
use std::alloc::{AllocError, Global};
use std::collections::BTreeMap;

fn add_one_installed(
    alloc: Global,
    offers: &mut BTreeMap<LineName, Offer>,
    one: &Pkg,
) -> Result<(), AllocError>
    ensures { OnOk result ((before : List Package) → IsFilled before [] offers.old.entries →
        on_line before (line_of one.now.facts) ≡ None →
        IsFilled (before ++ one.now ∷ []) [] offers.new.entries) }
{
    let line = one.line(alloc)?;
    let copy = copy_package(one)?;
    let offer = Offer {
        installed: Some(copy),
        variants: Vec::new(alloc),
    };
    offers.insert(line, offer)?;
    Ok(())
}

/// Puts installed packages on their lines, where nothing is offered yet.
pub(crate) fn add_installed(
    alloc: Global,
    offers: &mut BTreeMap<LineName, Offer>,
    installed: &[Pkg],
) -> Result<(), AllocError>
    requires { AreApart installed.now }
    ensures { OnOk result (IsFilled [] [] offers.old.entries →
        IsFilled installed.now [] offers.new.entries) }
{
    for one in installed {
        add_one_installed(alloc, offers, one)?;
    }
    Ok(())
}

/// Takes the offer of a line out. Where there is none yet, it offers nothing.
fn take_offer(alloc: Global, offers: &mut BTreeMap<LineName, Offer>, line: &LineName) -> Offer
    ensures offer { offer_of result ≡ offer_found (found offers.old.entries line.now) }
    ensures others { (q : List ℕ) → found offers.new.entries q ≡
        (if bytes_eq line.now q then None else found offers.old.entries q) }
{
    match offers.remove(line) {
        Some(offer) => offer,
        None => Offer {
            installed: None,
            variants: Vec::new(alloc),
        },
    }
}

fn add_variant(
    alloc: Global,
    offers: &mut BTreeMap<LineName, Offer>,
    variant: Pkg,
) -> Result<(), AllocError>
    ensures { OnOk result ((installed before : List Package) →
        IsFilled installed before offers.old.entries →
        IsFilled installed (before ++ variant ∷ []) offers.new.entries) }
{
    let line = variant.line(alloc)?;
    let mut offer = take_offer(alloc, offers, &line);
    offer.variants.push(variant)?;
    offers.insert(line, offer)?;
    Ok(())
}

fn add_variants(
    alloc: Global,
    offers: &mut BTreeMap<LineName, Offer>,
    variants: Vec<Pkg>,
) -> Result<(), AllocError>
    ensures { OnOk result ((installed before : List Package) →
        IsFilled installed before offers.old.entries →
        IsFilled installed (before ++ variants.items) offers.new.entries) }
{
    for variant in variants {
        add_variant(alloc, offers, variant)?;
    }
    Ok(())
}

/// Puts the variants of all candidates on their lines, behind those that are there.
pub(crate) fn add_candidates(
    alloc: Global,
    offers: &mut BTreeMap<LineName, Offer>,
    candidates: Vec<Candidate>,
) -> Result<(), AllocError>
    ensures { OnOk result ((installed : List Package) →
        IsFilled installed [] offers.old.entries →
        IsFilled installed (variants_of candidates.items) offers.new.entries) }
{
    for candidate in candidates {
        add_variants(alloc, offers, candidate.variants)?;
    }
    Ok(())
}
