ghost use Rattle.std.specs.Prelude.{◌≡◌, IfOk};
ghost use Rattle.std.specs.List.{list_any};
ghost use Rattle.std.specs.Option.{option_map};
ghost use Rattle.dep_atom.specs.Match.{value_matches};
ghost use Rattle.dep_atom.specs.Values.{atom_value};
ghost use Rattle.pkg_state.specs.Consistent.{facts_of};
ghost use Rattle.pkg_state.specs.Fault.{lacking_leaf};
ghost use Rattle.choice_law.specs.Possible.{judged_among};
ghost use Rattle.choice_tree.specs.Places.{is_one};
ghost use Rattle.choice_tree.specs.Views.{offer_of, universe_of};
ghost use Rattle.choice_walk.specs.Way.{here};
ghost use Rattle.choice_ends.specs.Ends.{is_offered, may_serve};

use choice_tree::{Offer, Universe};
use choice_walk::Walk;
use dep_atom::Atom;
use pkg_state::{Class, Pkg, copy_leaf};
use pms_names::Flags;
use std::alloc::AllocError;

/// The leaf to name of what the package needs in this class, where not all of it is there.
pub(crate) fn leaf_of(walk: &Walk<'_>, one: &Pkg, class: Class) -> Result<Option<Atom>, AllocError>
    ensures { IfOk result (λ leaf. option_map atom_value leaf ≡
        lacking_leaf (facts_of (judged_among (universe_of walk.now.universe.now)
        (here walk.now.trail.items) class one.now)) class one.now) }
{
    copy_leaf(walk.lacking_leaf(one, class))
}

/// Whether a package that may come, or that is there, is one that the leaf matches.
pub(crate) fn is_offered(universe: &Universe, leaf: Option<&Atom>, asker: &Flags) -> bool
    ensures { result ≡ is_one (is_offered (universe_of universe.now) asker.now)
        (option_map (λ atom. atom_value atom.now) leaf.entry) }
{
    match leaf {
        Some(atom) => some_serves(universe, atom, asker),
        None => false,
    }
}

fn some_serves(universe: &Universe, atom: &Atom, asker: &Flags) -> bool
    ensures { result ≡ is_offered (universe_of universe.now) asker.now (atom_value atom.now) }
{
    for offer in &universe.offers {
        if may_serve(offer, atom, asker) {
            return true;
        }
    }
    false
}

fn may_serve(offer: &Offer, atom: &Atom, asker: &Flags) -> bool
    ensures { result ≡ may_serve (atom_value atom.now) asker.now (offer_of offer.now) }
{
    serves_if_any(offer.installed.as_ref(), atom, asker) || any_serves(&offer.variants, atom, asker)
}

fn serves_if_any(one: Option<&Pkg>, atom: &Atom, asker: &Flags) -> bool
    ensures { result ≡ is_one (λ p. value_matches (atom_value atom.now) p.facts asker.now)
        (option_map (λ p. p.now) one.entry) }
{
    match one {
        Some(one) => atom.matches(&one.facts, asker),
        None => false,
    }
}

fn any_serves(all: &[Pkg], atom: &Atom, asker: &Flags) -> bool
    ensures { result ≡
        list_any (λ p. value_matches (atom_value atom.now) p.facts asker.now) all.now }
{
    for one in all {
        if atom.matches(&one.facts, asker) {
            return true;
        }
    }
    false
}
