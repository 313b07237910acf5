ghost use Rattle.std.specs.Prelude.{◌≡◌, None};
ghost use Rattle.std.specs.Option.{option_map};
ghost use Rattle.dep_atom.specs.Values.{atom_value};
ghost use Rattle.choice_tree.specs.Seen.{places_of};
ghost use Rattle.merge_edges.specs.Found.{best_among, best_in, better, is_hit, matched_at};
ghost use Rattle.merge_edges.specs.Found.{with_one};
ghost use Rattle.merge_edges.specs.Views.{stander_of};

use choice_tree::{Around, Place};
use dep_atom::Atom;
use pkg_state::Pkg;
use pms_names::Flags;

/// A package where it stands.
#[derive(Clone, Copy)]
pub(crate) struct Stander<'a> {
    pub(crate) line: usize,
    pub(crate) owner: &'a Pkg,
}

/// What stands on the line, if the atom matches it.
pub(crate) fn matched_at<'a>(
    places: &[Place<'a>],
    line: usize,
    atom: &Atom,
    asker: &Flags,
) -> Option<Stander<'a>>
    ensures { option_map stander_of result ≡
        matched_at (places_of places.now) (atom_value atom.now) asker.now line }
{
    if line >= places.len() {
        return None;
    }
    match &places[line].standing {
        Some(standing) => {
            let owner = standing.owner;
            if atom.matches(&owner.facts, asker) {
                return Some(Stander { line, owner });
            }
            None
        }
        None => None,
    }
}

/// Whether the atom matches what stands on the line.
pub(crate) fn is_hit(places: &[Place<'_>], line: usize, asker: &Flags, atom: &Atom) -> bool
    ensures { result ≡ is_hit (places_of places.now) asker.now (atom_value atom.now) line }
{
    if line >= places.len() {
        return false;
    }
    match &places[line].standing {
        Some(standing) => {
            let owner = standing.owner;
            atom.matches(&owner.facts, asker)
        }
        None => false,
    }
}

/// The one of the greater version; of equal ones the one that was found before.
fn better<'a>(best: Option<Stander<'a>>, other: Stander<'a>) -> Stander<'a>
    ensures { stander_of result ≡ better (option_map stander_of best.entry)
        (stander_of other.entry) }
{
    match best {
        Some(one) => {
            let (first, second) = (one.owner, other.owner);
            let order = second.facts.id.version.compare(&first.facts.id.version);
            if order.is_gt() { other } else { one }
        }
        None => other,
    }
}

fn with_one<'a>(best: Option<Stander<'a>>, one: Option<Stander<'a>>) -> Option<Stander<'a>>
    ensures { option_map stander_of result ≡
        with_one (option_map stander_of best.entry) (option_map stander_of one.entry) }
{
    match one {
        Some(other) => Some(better(best, other)),
        None => best,
    }
}

/// The best of these lines.
fn best_among<'a>(
    places: &[Place<'a>],
    lines: &[usize],
    atom: &Atom,
    asker: &Flags,
) -> Option<Stander<'a>>
    ensures { option_map stander_of result ≡
        best_among (places_of places.now) (atom_value atom.now) asker.now None lines.now }
{
    let mut best = None;
    for line in lines {
        best = with_one(best, matched_at(places, *line, atom, asker));
    }
    best
}

/// The greatest version that the atom matches, and of equal ones the one on the smallest line.
pub(crate) fn best_in<'a>(
    around: &Around<'_, 'a>,
    atom: &Atom,
    asker: &Flags,
) -> Option<Stander<'a>>
    ensures { option_map stander_of result ≡
        best_in (places_of around.now.places.now) (atom_value atom.now) asker.now }
{
    let lines = around.lines_named(atom.name.package.text());
    best_among(around.places, lines, atom, asker)
}
