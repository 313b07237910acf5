ghost use Rattle.std.specs.Prelude.{◌≡◌, get_or};
ghost use Rattle.std.specs.List.{list_any};
ghost use Rattle.dep_atom.specs.Match.{value_matches};
ghost use Rattle.dep_atom.specs.Values.{atom_value};
ghost use Rattle.choice_tree.specs.Open.{decides, opposes};
ghost use Rattle.choice_tree.specs.Places.{is_one, no_place, package_in};
ghost use Rattle.choice_tree.specs.Seen.{place_of, places_of};
ghost use Rattle.dep_atom.specs.Ids.{id_text};
ghost use Rattle.std.specs.Prelude.{[]};

use crate::opposing::conflict;
use crate::place::Place;
use dep_atom::Atom;
use pkg_state::Pkg;
use pms_names::Flags;

fn decides(place: &Place<'_>, atom: &Atom, nobody: &Flags) -> bool
    requires { nobody.now ≡ [] }
    ensures { result ≡ decides (atom_value atom.now) (place_of place.now) }
{
    match place.decided {
        Some(value) => match place.offer.package(value) {
            Some(one) => atom.matches(&one.facts, nobody),
            None => false,
        },
        None => false,
    }
}

fn decides_at(places: &[Place<'_>], line: usize, atom: &Atom, nobody: &Flags) -> bool
    requires { nobody.now ≡ [] }
    ensures { result ≡
        decides (atom_value atom.now) (get_or (places_of places.now) line no_place) }
{
    line < places.len() && decides(&places[line], atom, nobody)
}

/// Whether one of the lines is decided, and has a package that the atom matches.
pub fn any_decides(places: &[Place<'_>], lines: &[usize], atom: &Atom, nobody: &Flags) -> bool
    requires { nobody.now ≡ [] }
    ensures { result ≡ list_any
        (λ l. decides (atom_value atom.now) (get_or (places_of places.now) l no_place)) lines.now }
{
    for line in lines {
        if decides_at(places, *line, atom, nobody) {
            return true;
        }
    }
    false
}

fn matches_at(places: &[Place<'_>], line: usize, atom: &Atom, asker: &Flags) -> bool
    ensures { result ≡ is_one (λ p. value_matches (atom_value atom.now) p.facts asker.now)
        (package_in (get_or (places_of places.now) line no_place)) }
{
    if line >= places.len() {
        return false;
    }
    match &places[line].standing {
        Some(standing) => {
            let owner = standing.owner;
            atom.matches(&owner.facts, asker)
        }
        None => false,
    }
}

/// Whether on one of the lines a package stands that the atom matches.
pub(crate) fn any_matches(places: &[Place<'_>], lines: &[usize], atom: &Atom, asker: &Flags) -> bool
    ensures { result ≡ list_any
        (λ l. is_one (λ p. value_matches (atom_value atom.now) p.facts asker.now)
        (package_in (get_or (places_of places.now) l no_place))) lines.now }
{
    for line in lines {
        if matches_at(places, *line, atom, asker) {
            return true;
        }
    }
    false
}

/// Whether what stands there can't stand beside the package, of which this is the text.
pub fn opposes(place: &Place<'_>, other: &Pkg, text: &str) -> bool
    requires { text.now ≡ id_text other.now.facts.id }
    ensures { result ≡ opposes other.now (place_of place.now) }
{
    match &place.standing {
        Some(standing) => conflict(standing, other, text),
        None => false,
    }
}

/// The same of any line.
pub fn any_opposes(places: &[Place<'_>], other: &Pkg, text: &str) -> bool
    requires { text.now ≡ id_text other.now.facts.id }
    ensures { result ≡ list_any (opposes other.now) (places_of places.now) }
{
    for place in places {
        if opposes(place, other, text) {
            return true;
        }
    }
    false
}
