ghost use Rattle.std.specs.Prelude.{◌≡◌, ◌<◌, IfOk, [], length, map};
ghost use Rattle.std.specs.List.{find, flat_map, list_any};
ghost use Rattle.std.specs.Option.{option_map};
ghost use Rattle.dep_atom.specs.Values.{atom_value};
ghost use Rattle.choice_law.specs.Tree.{absence, conflict, required, tree, wanted};
ghost use Rattle.choice_tree.specs.Open.{classes, decides, first_open, is_open_of, obligation_of};
ghost use Rattle.choice_tree.specs.Open.{obligations};
ghost use Rattle.choice_tree.specs.Open.{obligations_of, opposes};
ghost use Rattle.choice_tree.specs.Places.{is_one, numbers, package_in};
ghost use Rattle.choice_tree.specs.Seen.{place_of, places_of};
ghost use Rattle.choice_law.specs.Universe.{Value as TheValue, counts, is_new};
ghost use Rattle.choice_tree.specs.Views.{universe_of};
ghost use Rattle.choice_walk.specs.Settled.{AreSettled};

use crate::settling::first_of;
use crate::walk::Walk;
use choice_tree::{
    Around, CLASSES, Choice, Obligation, Place, Universe, Value, any_decides, any_opposes, is_calm,
    opposes,
};
use dep_atom::Atom;
use pkg_state::Class;
use pms_names::Flags;
use std::alloc::{AllocError, Global};
use std::collections::BTreeSet;

/// Whether a decided line has a package that the atom matches.
fn is_served(around: &Around<'_, '_>, atom: &Atom, nobody: &Flags) -> bool
    requires { nobody.now ≡ [] }
    ensures { result ≡
        list_any (decides (atom_value atom.now)) (places_of around.now.places.now) }
{
    let lines = around.lines_named(atom.name.package.text());
    any_decides(around.places, lines, atom, nobody)
}

/// The first wanted atom that no decided line serves.
fn first_wanted<'a>(alloc: Global, atoms: &'a [Atom], around: &Around<'_, '_>) -> Option<&'a Atom>
    ensures { option_map (λ a. atom_value a.now) result ≡
        find (λ a. is_open_of (places_of around.now.places.now) (wanted a))
        (map atom_value atoms.now) }
{
    let nobody = Flags::new(alloc);
    for atom in atoms {
        if !is_served(around, atom, &nobody) {
            return Some(atom);
        }
    }
    None
}

fn lacks_flags(places: &[Place<'_>], line: usize) -> bool
    requires { line < length places.now }
    ensures { result ≡ is_open_of (places_of places.now) (required line) }
{
    match &places[line].standing {
        Some(standing) => !standing.owner.fits_required(),
        None => false,
    }
}

fn has_conflict(places: &[Place<'_>], line: usize, other: usize) -> bool
    requires line { line < length places.now }
    requires other { other < length places.now }
    ensures { result ≡ is_open_of (places_of places.now) (conflict line other) }
{
    line != other && are_opposed(&places[line], &places[other])
}

/// The first line whose package the package of this line can't stand beside.
fn first_conflict(around: &Around<'_, '_>, line: usize) -> Option<usize>
    requires { line < length around.now.places.now }
    ensures { result ≡ find (λ m. is_open_of (places_of around.now.places.now) (conflict line m))
        (numbers (length around.now.places.now) 0) }
{
    if is_calm(around, line) {
        return None;
    }
    let places = around.places;
    for other in 0..places.len() {
        if has_conflict(places, line, other) {
            return Some(other);
        }
    }
    None
}

fn are_opposed(place: &Place<'_>, other: &Place<'_>) -> bool
    ensures { result ≡ is_one (λ q. opposes q (place_of place.now))
        (package_in (place_of other.now)) }
{
    match &other.standing {
        Some(standing) => opposes(place, standing.owner, standing.text.as_str()),
        None => false,
    }
}

fn counts(class: Class, new: bool) -> bool
    ensures { (v : TheValue) → is_new v ≡ new → result ≡ counts class v }
{
    match class {
        Class::Rdepend => true,
        _ => new,
    }
}

fn is_unmet(around: &Around<'_, '_>, line: usize, class: Class) -> bool
    requires { line < length around.now.places.now }
    ensures { result ≡ is_open_of (places_of around.now.places.now) (tree line class) }
{
    match &around.places[line].standing {
        Some(standing) => {
            counts(class, standing.is_new) && !standing.owner.is_met(class, around)
        }
        None => false,
    }
}

/// The first class whose needs are not met.
fn first_unmet(around: &Around<'_, '_>, line: usize) -> Option<Class>
    requires { line < length around.now.places.now }
    ensures { result ≡
        find (λ class. is_open_of (places_of around.now.places.now) (tree line class)) classes }
{
    for class in CLASSES {
        if is_unmet(around, line, class) {
            return Some(class);
        }
    }
    None
}

/// What is first open of the package on a line.
fn first_of_line<'a>(around: &Around<'_, '_>, line: usize) -> Option<Obligation<'a>>
    requires { line < length around.now.places.now }
    ensures { option_map obligation_of result ≡
        find (is_open_of (places_of around.now.places.now))
        (obligations_of (length around.now.places.now) line) }
{
    if lacks_flags(around.places, line) {
        return Some(Obligation::Required(line));
    }
    if let Some(other) = first_conflict(around, line) {
        return Some(Obligation::Conflict(line, other));
    }
    match first_unmet(around, line) {
        Some(class) => Some(Obligation::Tree(line, class)),
        None => None,
    }
}

/// What is first open of the packages, line by line. Only lines that may have something open are
/// judged, and one of which nothing is open is none of them any more.
fn first_of_packages<'a>(
    around: &Around<'_, '_>,
    unsettled: &mut BTreeSet<usize>,
) -> Option<Obligation<'a>>
    requires { AreSettled around.now.places.now unsettled.old }
    ensures settled { AreSettled around.now.places.now unsettled.new }
    ensures found { option_map obligation_of result ≡
        find (is_open_of (places_of around.now.places.now))
        (flat_map (obligations_of (length around.now.places.now))
        (numbers (length around.now.places.now) 0)) }
{
    while let Some(line) = first_of(unsettled) {
        if line >= around.places.len() {
            return None;
        }
        if let Some(found) = first_of_line(around, line) {
            return Some(found);
        }
        unsettled.remove(&line);
    }
    None
}

fn is_forsaken(alloc: Global, places: &[Place<'_>], line: usize) -> Result<bool, AllocError>
    requires { line < length places.now }
    ensures { IfOk result (λ it. it ≡ is_open_of (places_of places.now) (absence line)) }
{
    let place = &places[line];
    match (place.decided, &place.offer.installed) {
        (Some(Value::Absent), Some(gone)) => {
            let text = gone.facts.id.print(alloc)?;
            Ok(!any_opposes(places, gone, text.as_str()))
        }
        _ => Ok(false),
    }
}

/// The first line whose package is to leave it without a conflict.
fn first_forsaken(alloc: Global, places: &[Place<'_>]) -> Result<Option<usize>, AllocError>
    ensures { IfOk result (λ line. line ≡
        find (λ l. is_open_of (places_of places.now) (absence l)) (numbers (length places.now) 0)) }
{
    for line in 0..places.len() {
        if is_forsaken(alloc, places, line)? {
            return Ok(Some(line));
        }
    }
    Ok(None)
}

/// What is first open of all.
pub(crate) fn first_of_all<'a>(
    alloc: Global,
    atoms: &'a [Atom],
    around: &Around<'_, '_>,
    unsettled: &mut BTreeSet<usize>,
) -> Result<Option<Obligation<'a>>, AllocError>
    requires { AreSettled around.now.places.now unsettled.old }
    ensures settled { AreSettled around.now.places.now unsettled.new }
    ensures found { IfOk result (λ found. option_map obligation_of found ≡
        find (is_open_of (places_of around.now.places.now))
        (obligations (map atom_value atoms.now) (length around.now.places.now))) }
{
    if let Some(atom) = first_wanted(alloc, atoms, around) {
        return Ok(Some(Obligation::Wanted(atom)));
    }
    if let Some(found) = first_of_packages(around, unsettled) {
        return Ok(Some(found));
    }
    match first_forsaken(alloc, around.places)? {
        Some(line) => Ok(Some(Obligation::Absence(line))),
        None => Ok(None),
    }
}

/// What is taken up next of a choice, if anything is open: what is wanted, then line by line each
/// package's flags, conflicts and dependencies, then what is to go without a conflict.
pub fn first_open<'a>(
    alloc: Global,
    universe: &'a Universe,
    choice: &Choice,
) -> Result<Option<Obligation<'a>>, AllocError>
    ensures { IfOk result (λ found. option_map obligation_of found ≡
        first_open (universe_of universe.now) choice.now) }
{
    let mut walk = Walk::to(alloc, universe, choice)?;
    let found = walk.first_open(alloc)?;
    Ok(found)
}
