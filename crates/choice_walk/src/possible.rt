ghost use Rattle.std.specs.Prelude.{◌≡◌, false, get_or};
ghost use Rattle.std.specs.List.{list_any};
ghost use Rattle.std.specs.Option.{option_map, option_map_or};
ghost use Rattle.dep_atom.specs.Match.{value_matches};
ghost use Rattle.dep_atom.specs.Values.{atom_value};
ghost use Rattle.pkg_state.specs.Consistent.{facts_of};
ghost use Rattle.pkg_state.specs.Fault.{lacking_leaf};
ghost use Rattle.choice_law.specs.Possible.{is_hopeless};
ghost use Rattle.choice_law.specs.Reasons.{can_match};
ghost use Rattle.choice_law.specs.Tree.{Choice as Decisions};
ghost use Rattle.choice_law.specs.Universe.{Universe};
ghost use Rattle.choice_tree.specs.Open.{obligation_of};
ghost use Rattle.choice_tree.specs.Places.{no_place, places};
ghost use Rattle.choice_tree.specs.Seen.{place_of, places_of};
ghost use Rattle.choice_tree.specs.Views.{offer_of};
ghost use Rattle.choice_walk.specs.Possible.{is_lost, judged_in, may_match};

use choice_tree::{Around, Obligation, Offer, Place};
use dep_atom::Atom;
use dep_tree::Present;
use pkg_state::{Class, Pkg};
use pms_names::Flags;

/// All packages that may yet stand under a choice: on a decided line what is decided, on another
/// one what is installed there and each variant.
#[derive(Drop)]
pub(crate) struct Possible<'x, 'p, 'a> {
    pub(crate) around: &'x Around<'p, 'a>,
}

fn any_matched(atom: &Atom, asker: &Flags, variants: &[Pkg]) -> bool
    ensures { result ≡
        list_any (λ p. value_matches (atom_value atom.now) p.facts asker.now) variants.now }
{
    for variant in variants {
        if atom.matches(&variant.facts, asker) {
            return true;
        }
    }
    false
}

fn keeps_matched(atom: &Atom, asker: &Flags, offer: &Offer) -> bool
    ensures { result ≡
        option_map_or (λ p. value_matches (atom_value atom.now) p.facts asker.now)
        (offer_of offer.now).installed false }
{
    match &offer.installed {
        Some(installed) => atom.matches(&installed.facts, asker),
        None => false,
    }
}

/// Whether the atom matches a package that may stand on the line, whatever is decided of it.
pub(crate) fn can_match(atom: &Atom, asker: &Flags, offer: &Offer) -> bool
    ensures { result ≡ can_match (atom_value atom.now) asker.now (offer_of offer.now) }
{
    keeps_matched(atom, asker, offer) || any_matched(atom, asker, &offer.variants)
}

fn may_match(place: &Place<'_>, atom: &Atom, asker: &Flags) -> bool
    ensures { result ≡ may_match (atom_value atom.now) asker.now (place_of place.now) }
{
    match place.decided {
        Some(value) => match place.offer.package(value) {
            Some(one) => atom.matches(&one.facts, asker),
            None => false,
        },
        None => can_match(atom, asker, place.offer),
    }
}

fn may_match_at(places: &[Place<'_>], line: usize, atom: &Atom, asker: &Flags) -> bool
    ensures { result ≡ may_match (atom_value atom.now) asker.now
        (get_or (places_of places.now) line no_place) }
{
    line < places.len() && may_match(&places[line], atom, asker)
}

/// Whether on one of the lines a package may yet stand that the atom matches.
fn any_may_match(places: &[Place<'_>], lines: &[usize], atom: &Atom, asker: &Flags) -> bool
    ensures { result ≡ list_any (λ l. may_match (atom_value atom.now) asker.now
        (get_or (places_of places.now) l no_place)) lines.now }
{
    for line in lines {
        if may_match_at(places, *line, atom, asker) {
            return true;
        }
    }
    false
}

impl<'x, 'p, 'a> Present for Possible<'x, 'p, 'a> {
    ghost use Rattle.pkg_state.specs.Consistent.{facts_of};
    ghost use Rattle.choice_tree.specs.Seen.{places_of};
    ghost use Rattle.choice_walk.specs.Possible.{possible_in};

    ghost facts = { λ x. facts_of (possible_in (places_of x.around.now.places.now)) };

    fn some_match(&self, atom: &Atom, asker: &Flags) -> bool {
        let lines = self.around.lines_named(atom.name.package.text());
        any_may_match(self.around.places, lines, atom, asker)
    }
}

fn is_lost(around: &Around<'_, '_>, class: Class, place: &Place<'_>) -> bool
    ensures { result ≡ is_lost (places_of around.now.places.now) class (place_of place.now) }
{
    if place.decided.is_none() {
        return false;
    }
    match &place.standing {
        Some(standing) => !standing.owner.is_met(class, &Possible { around }),
        None => false,
    }
}

fn is_lost_at(around: &Around<'_, '_>, class: Class, line: usize) -> bool
    ensures { result ≡ is_lost (places_of around.now.places.now) class
        (get_or (places_of around.now.places.now) line no_place) }
{
    line < around.places.len() && is_lost(around, class, &around.places[line])
}

/// Whether the choice is hopeless for what is open: no decision on another line closes it.
pub(crate) fn is_hopeless(around: &Around<'_, '_>, obligation: &Obligation<'_>) -> bool
    ensures { (u : Universe) (c : Decisions) → places_of around.now.places.now ≡ places u c →
        result ≡ is_hopeless u c (obligation_of obligation.now) }
{
    match *obligation {
        Obligation::Tree(line, class) => is_lost_at(around, class, line),
        _ => false,
    }
}

/// The leaf to name where what the package needs in this class isn't there: by all that may yet
/// stand, where it isn't there even then.
pub(crate) fn lacking_leaf<'x>(
    around: &Around<'_, '_>,
    one: &'x Pkg,
    class: Class,
) -> Option<&'x Atom>
    ensures { option_map (λ atom. atom_value atom.now) result ≡ lacking_leaf
        (facts_of (judged_in (places_of around.now.places.now) class one.now)) class one.now }
{
    let possible = Possible { around };
    if one.is_met(class, &possible) {
        return one.lacking_leaf(class, around);
    }
    one.lacking_leaf(class, &possible)
}
