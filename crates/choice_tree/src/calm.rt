ghost use Rattle.std.specs.Prelude.{◌≡◌, ◌<◌, ◌&&◌, ℕ, IsTrue, bytes_eq, false, get_or, length};
ghost use Rattle.std.specs.Prelude.{map, nat_eq, not};
ghost use Rattle.std.specs.List.{list_any};
ghost use Rattle.dep_atom.specs.Ids.{id_text};
ghost use Rattle.dep_atom.specs.Values.{atom_value};
ghost use Rattle.dep_tree.specs.Truth.{some_match};
ghost use Rattle.pkg_state.specs.Consistent.{facts_of};
ghost use Rattle.choice_law.specs.Tree.{conflict};
ghost use Rattle.choice_tree.specs.Open.{is_open_of};
ghost use Rattle.choice_tree.specs.Places.{is_one, no_place, package_in, packages_in};
ghost use Rattle.choice_tree.specs.Seen.{places_of};

use crate::around::Around;
use crate::opposing::is_same;
use crate::place::Place;
use dep_atom::Atom;
use dep_tree::Present;
use pkg_state::Pkg;

fn is_told(places: &[Place<'_>], line: usize, text: &str) -> bool
    ensures { result ≡ is_one (λ q. bytes_eq text.now (id_text q.facts.id))
        (package_in (get_or (places_of places.now) line no_place)) }
{
    if line >= places.len() {
        return false;
    }
    match &places[line].standing {
        Some(standing) => is_same(text, standing.text.as_str()),
        None => false,
    }
}

fn is_other(places: &[Place<'_>], line: usize, other: usize, text: &str) -> bool
    ensures { result ≡ (not (nat_eq line other) &&
        is_one (λ q. bytes_eq text.now (id_text q.facts.id))
        (package_in (get_or (places_of places.now) other no_place))) }
{
    line != other && is_told(places, other, text)
}

/// Whether on another one of these lines a package of this text stands.
fn any_other(places: &[Place<'_>], line: usize, lines: &[usize], text: &str) -> bool
    ensures { result ≡ list_any (λ m. not (nat_eq line m) &&
        is_one (λ q. bytes_eq text.now (id_text q.facts.id))
        (package_in (get_or (places_of places.now) m no_place))) lines.now }
{
    for other in lines {
        if is_other(places, line, *other, text) {
            return true;
        }
    }
    false
}

fn hits_any(atoms: &[&Atom], owner: &Pkg, around: &Around<'_, '_>) -> bool
    ensures { result ≡ list_any (some_match
        (facts_of (packages_in (places_of around.now.places.now))) owner.now.facts.enabled)
        (map (λ a. atom_value a.now) atoms.now) }
{
    for atom in atoms {
        if around.some_match(atom, &owner.facts.enabled) {
            return true;
        }
    }
    false
}

/// Where this holds, nothing conflicts with what stands on the line. It may fail where nothing does.
pub fn is_calm(around: &Around<'_, '_>, line: usize) -> bool
    requires { line < length around.now.places.now }
    ensures { IsTrue result → (m : ℕ) → m < length around.now.places.now →
        is_open_of (places_of around.now.places.now) (conflict line m) ≡ false }
{
    match &around.places[line].standing {
        None => true,
        Some(standing) => {
            let text = standing.text.as_str();
            if any_other(around.places, line, around.lines_told(text), text) {
                return false;
            }
            !hits_any(&standing.blocks, standing.owner, around)
        }
    }
}
