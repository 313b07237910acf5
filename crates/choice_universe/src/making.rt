ghost use Rattle.std.specs.Prelude.{◌≡◌, IfOk, map};
ghost use Rattle.std.specs.Map.{values_of};
ghost use Rattle.pkg_state.specs.Consistent.{AreApart};
ghost use Rattle.choice_tree.specs.Views.{offer_of};
ghost use Rattle.choice_universe.specs.Offers.{AreOffers, variants_of};

use crate::candidate::Candidate;
use crate::filling::{add_candidates, add_installed};
use choice_tree::{Offer, Universe};
use dep_atom::Atom;
use pkg_state::{LineName, Pkg};
use std::alloc::{AllocError, Global};
use std::collections::BTreeMap;

/// What there is to choose from. The candidates come by their names, the greater version of a name
/// first, and of equal versions the one with the smaller text: so do the variants of a line.
pub fn make_universe(
    alloc: Global,
    installed: &[Pkg],
    candidates: Vec<Candidate>,
    wanted: Vec<Atom>,
    update: bool,
) -> Result<Universe, AllocError>
    requires apart { AreApart installed.now }
    ensures offers { IfOk result (λ u. AreOffers installed.now (variants_of candidates.items)
        (map offer_of u.offers.items)) }
    ensures wanted { IfOk result (λ u. u.wanted ≡ wanted) }
    ensures update { IfOk result (λ u. u.update ≡ update) }
{
    let mut offers = BTreeMap::new(alloc);
    add_installed(alloc, &mut offers, installed)?;
    add_candidates(alloc, &mut offers, candidates)?;
    let offers = listed(alloc, offers)?;
    Ok(Universe {
        offers,
        wanted,
        update,
    })
}

/// The offers in the order of their lines.
fn listed(alloc: Global, offers: BTreeMap<LineName, Offer>) -> Result<Vec<Offer>, AllocError>
    ensures { IfOk result (λ v. v.items ≡ values_of offers.entries) }
{
    let mut list = Vec::new(alloc);
    for offer in offers.into_values() {
        list.push(offer)?;
    }
    Ok(list)
}
