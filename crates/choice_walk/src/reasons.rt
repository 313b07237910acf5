ghost use Rattle.std.specs.Prelude.{◌≡◌, ◌<◌, ◌&&◌, IfOk, false, is_some, length, map};
ghost use Rattle.std.specs.Prelude.{true};
ghost use Rattle.std.specs.List.{list_any};
ghost use Rattle.std.specs.Option.{option_map, option_map_or};
ghost use Rattle.dep_atom.specs.Ids.{id_text};
ghost use Rattle.dep_atom.specs.Values.{atom_value};
ghost use Rattle.pkg_state.specs.Consistent.{facts_of};
ghost use Rattle.choice_law.specs.Blame.{blamed_in};
ghost use Rattle.choice_law.specs.Reasons.{can_match, offers_against, reason, rests_on};
ghost use Rattle.choice_law.specs.Tree.{decided, filling};
ghost use Rattle.choice_law.specs.Universe.{conflicts, offer_at, package_of};
ghost use Rattle.choice_tree.specs.Open.{obligation_of};
ghost use Rattle.choice_tree.specs.Places.{places};
ghost use Rattle.choice_tree.specs.Seen.{places_of};
ghost use Rattle.choice_tree.specs.Tree.{tree_reason};
ghost use Rattle.choice_tree.specs.Views.{offer_of, universe_of};
ghost use Rattle.choice_walk.specs.Blame.{blamed_for};
ghost use Rattle.choice_walk.specs.Possible.{judged_in};

use crate::blame::blamed_of;
use crate::marks::Marked;
use crate::possible::{Possible, can_match};
use crate::walk::Walk;
use choice_tree::{Around, Choice, Obligation, Offer, Standing, Universe, conflict};
use dep_atom::Atom;
use pkg_state::{Class, Pkg};
use pms_names::Flags;
use std::alloc::{AllocError, Global};

/// Whether one of the atoms matches a package that may stand on the line.
fn any_can_match(atoms: &[&Atom], asker: &Flags, offer: &Offer) -> bool
    ensures { result ≡ list_any (λ a. can_match a asker.now (offer_of offer.now))
        (map (λ a. atom_value a.now) atoms.now) }
{
    for atom in atoms {
        if can_match(atom, asker, offer) {
            return true;
        }
    }
    false
}

fn is_against(
    alloc: Global,
    owner: &Pkg,
    is_new: bool,
    gone: &Pkg,
    text: &str,
) -> Result<bool, AllocError>
    requires { text.now ≡ id_text gone.now.facts.id }
    ensures { IfOk result (λ it. it ≡ conflicts is_new owner.now gone.now) }
{
    let standing = Standing::new(alloc, owner, is_new)?;
    Ok(conflict(&standing, gone, text))
}

fn any_against(alloc: Global, variants: &[Pkg], gone: &Pkg, text: &str) -> Result<bool, AllocError>
    requires { text.now ≡ id_text gone.now.facts.id }
    ensures { IfOk result (λ it. it ≡ list_any (λ q. conflicts true q gone.now) variants.now) }
{
    for variant in variants {
        if is_against(alloc, variant, true, gone, text)? {
            return Ok(true);
        }
    }
    Ok(false)
}

fn keeps_against(alloc: Global, offer: &Offer, gone: &Pkg, text: &str) -> Result<bool, AllocError>
    requires { text.now ≡ id_text gone.now.facts.id }
    ensures { IfOk result (λ it. it ≡ option_map_or (λ q. conflicts false q gone.now)
        (offer_of offer.now).installed false) }
{
    match &offer.installed {
        Some(installed) => is_against(alloc, installed, false, gone, text),
        None => Ok(false),
    }
}

/// Whether a package that may stand on the line can't stand beside the other one.
fn offers_against(alloc: Global, gone: &Pkg, offer: &Offer) -> Result<bool, AllocError>
    ensures { IfOk result (λ it. it ≡ offers_against gone.now (offer_of offer.now)) }
{
    let text = gone.facts.id.print(alloc)?;
    if keeps_against(alloc, offer, gone, text.as_str())? {
        return Ok(true);
    }
    any_against(alloc, &offer.variants, gone, text.as_str())
}

/// The package that stands on a line, if there is one.
fn package_at<'a>(universe: &'a Universe, choice: &Marked, line: usize) -> Option<&'a Pkg>
    ensures { option_map (λ p. p.now) result ≡
        package_of (offer_at (universe_of universe.now) line)
        (filling (universe_of universe.now) choice.now.choice line) }
{
    match universe.offers.get(line) {
        None => None,
        Some(offer) => match choice.decided(line) {
            Some(value) => offer.package(value),
            None => offer.package(offer.as_is()),
        },
    }
}

/// The package that is installed on a line, if there is one.
fn installed_at<'a>(universe: &'a Universe, line: usize) -> Option<&'a Pkg>
    ensures { option_map (λ p. p.now) result ≡
        (offer_at (universe_of universe.now) line).installed }
{
    match universe.offers.get(line) {
        None => None,
        Some(offer) => offer.installed.as_ref(),
    }
}

/// Whether a package that may stand on the line is matched by one of these leaves of the owner.
fn may_serve(owner: Option<&Pkg>, leaves: &[&Atom], offer: &Offer) -> bool
    ensures { result ≡ option_map_or
        (λ p. list_any (λ a. can_match a p.facts.enabled (offer_of offer.now))
        (map (λ a. atom_value a.now) leaves.now))
        (option_map (λ p. p.now) owner.entry) false }
{
    match owner {
        None => false,
        Some(owner) => any_can_match(leaves, &owner.facts.enabled, offer),
    }
}

fn may_oust(alloc: Global, gone: Option<&Pkg>, offer: &Offer) -> Result<bool, AllocError>
    ensures { IfOk result (λ it. it ≡
        option_map_or (λ z. offers_against z (offer_of offer.now))
        (option_map (λ p. p.now) gone.entry) false) }
{
    match gone {
        None => Ok(false),
        Some(gone) => offers_against(alloc, gone, offer),
    }
}

fn offer_at(universe: &Universe, line: usize) -> &Offer
    requires { line < length universe.now.offers.items }
    ensures { offer_of result.now ≡ offer_at (universe_of universe.now) line }
{
    &universe.offers[line]
}

/// The leaves to blame where what the package needs in this class isn't there: by all that may yet
/// stand, where it isn't there even then.
fn blamed_by<'a>(
    alloc: Global,
    owner: &'a Pkg,
    class: Class,
    around: &Around<'_, '_>,
) -> Result<Vec<&'a Atom>, AllocError>
    ensures { IfOk result (λ v. map (λ atom. atom_value atom.now) v.items ≡ blamed_in
        (facts_of (judged_in (places_of around.now.places.now) class owner.now)) class owner.now) }
{
    let possible = Possible { around };
    if owner.is_met(class, &possible) {
        return blamed_of(alloc, owner, class, around);
    }
    blamed_of(alloc, owner, class, &possible)
}

/// The leaves to blame for it that the obligation is open, as far as it is a package that lacks
/// what it needs.
fn blamed_for<'u>(
    alloc: Global,
    universe: &'u Universe,
    choice: &Marked,
    around: &Around<'_, '_>,
    obligation: &Obligation<'_>,
) -> Result<Vec<&'u Atom>, AllocError>
    requires { places_of around.now.places.now ≡
        places (universe_of universe.now) choice.now.choice }
    ensures { IfOk result (λ v. map (λ a. atom_value a.now) v.items ≡
        blamed_for (universe_of universe.now) choice.now.choice (obligation_of obligation.now)) }
{
    let Obligation::Tree(own, class) = *obligation else {
        return Ok(Vec::new(alloc));
    };
    let Some(owner) = package_at(universe, choice, own) else {
        return Ok(Vec::new(alloc));
    };
    let leaves = blamed_by(alloc, owner, class, around)?;
    Ok(leaves)
}

/// Whether what is decided of a line has to do with it that the obligation is open. The leaves to
/// blame for it are given.
fn rests_on(
    alloc: Global,
    universe: &Universe,
    choice: &Marked,
    obligation: &Obligation<'_>,
    blamed: &[&Atom],
    line: usize,
) -> Result<bool, AllocError>
    requires there { line < length universe.now.offers.items }
    requires blamed { map (λ a. atom_value a.now) blamed.now ≡
        blamed_for (universe_of universe.now) choice.now.choice (obligation_of obligation.now) }
    ensures { IfOk result (λ it. it ≡ rests_on (universe_of universe.now) choice.now.choice
        (obligation_of obligation.now) line) }
{
    let offer = offer_at(universe, line);
    match *obligation {
        Obligation::Wanted(atom) => Ok(can_match(atom, &Flags::new(alloc), offer)),
        Obligation::Required(own) => Ok(own == line),
        Obligation::Conflict(own, other) => Ok(own == line || other == line),
        Obligation::Tree(own, _) => {
            Ok(own == line || may_serve(package_at(universe, choice, own), blamed, offer))
        }
        Obligation::Absence(own) => {
            if own == line {
                return Ok(true);
            }
            may_oust(alloc, installed_at(universe, own), offer)
        }
    }
}

fn is_part(
    alloc: Global,
    universe: &Universe,
    choice: &Marked,
    obligation: &Obligation<'_>,
    blamed: &[&Atom],
    line: usize,
) -> Result<bool, AllocError>
    requires there { line < length universe.now.offers.items }
    requires blamed { map (λ a. atom_value a.now) blamed.now ≡
        blamed_for (universe_of universe.now) choice.now.choice (obligation_of obligation.now) }
    ensures { IfOk result (λ it. it ≡ (is_some (decided choice.now.choice line) &&
        rests_on (universe_of universe.now) choice.now.choice (obligation_of obligation.now) line)) }
{
    match choice.decided(line) {
        None => Ok(false),
        Some(_) => rests_on(alloc, universe, choice, obligation, blamed, line),
    }
}

/// The decided lines on which it rests that the obligation is open, in their order. What stands on
/// the lines under the choice is given.
pub(crate) fn reason_of(
    alloc: Global,
    universe: &Universe,
    choice: &Marked,
    around: &Around<'_, '_>,
    obligation: &Obligation<'_>,
) -> Result<Vec<usize>, AllocError>
    requires { places_of around.now.places.now ≡
        places (universe_of universe.now) choice.now.choice }
    ensures { IfOk result (λ v. v.items ≡ reason (universe_of universe.now) choice.now.choice
        (obligation_of obligation.now)) }
{
    let blamed = blamed_for(alloc, universe, choice, around, obligation)?;
    let mut lines = Vec::new(alloc);
    for line in 0..universe.offers.len() {
        if is_part(alloc, universe, choice, obligation, &blamed, line)? {
            lines.push(line)?;
        }
    }
    Ok(lines)
}

/// The decided lines on which it rests that something is first open of a choice, in their order;
/// none where nothing is open. It looks at all lines once.
pub fn next_reason(
    alloc: Global,
    universe: &Universe,
    choice: &Choice,
) -> Result<Vec<usize>, AllocError>
    ensures { IfOk result (λ v. v.items ≡ tree_reason (universe_of universe.now) choice.now) }
{
    let mut walk = Walk::to(alloc, universe, choice)?;
    let lines = walk.reason(alloc)?;
    Ok(lines)
}
