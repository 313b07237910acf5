ghost use Rattle.std.specs.Prelude.{◌≡◌, IfOk, [], not};
ghost use Rattle.std.specs.List.{find, list_any};
ghost use Rattle.std.specs.Option.{option_map};
ghost use Rattle.choice_tree.specs.Places.{is_one};
ghost use Rattle.choice_tree.specs.Views.{offer_of, universe_of};
ghost use Rattle.dep_atom.specs.Values.{atom_value};
ghost use Rattle.emerge_choose.specs.Wishes.{first_unserved, is_match, is_served, may_serve};

use choice_tree::{Offer, Universe};
use dep_atom::Atom;
use pkg_state::Pkg;
use pms_names::Flags;
use std::alloc::Global;

fn serves_if_any(atom: &Atom, one: &Option<Pkg>, nobody: &Flags) -> bool
    requires { nobody.now ≡ [] }
    ensures { result ≡ is_one (is_match (atom_value atom.now)) one.now }
{
    match one {
        Some(one) => atom.matches(&one.facts, nobody),
        None => false,
    }
}

fn any_serves(atom: &Atom, all: &[Pkg], nobody: &Flags) -> bool
    requires { nobody.now ≡ [] }
    ensures { result ≡ list_any (is_match (atom_value atom.now)) all.now }
{
    for one in all {
        if atom.matches(&one.facts, nobody) {
            return true;
        }
    }
    false
}

fn may_serve(atom: &Atom, offer: &Offer, nobody: &Flags) -> bool
    requires { nobody.now ≡ [] }
    ensures { result ≡ may_serve (atom_value atom.now) (offer_of offer.now) }
{
    serves_if_any(atom, &offer.installed, nobody) || any_serves(atom, &offer.variants, nobody)
}

fn is_served(universe: &Universe, atom: &Atom, nobody: &Flags) -> bool
    requires { nobody.now ≡ [] }
    ensures { result ≡ is_served (universe_of universe.now) (atom_value atom.now) }
{
    for offer in &universe.offers {
        if may_serve(atom, offer, nobody) {
            return true;
        }
    }
    false
}

/// The first wanted atom that matches no value of a line, if there is one.
pub(crate) fn first_unserved<'a>(alloc: Global, universe: &'a Universe) -> Option<&'a Atom>
    ensures { option_map (λ a. atom_value a.now) result ≡
        first_unserved (universe_of universe.now) }
{
    let nobody = Flags::new(alloc);
    for atom in &universe.wanted {
        if !is_served(universe, atom, &nobody) {
            return Some(atom);
        }
    }
    None
}
