ghost use Rattle.std.specs.Prelude.{◌≡◌, ◌<◌, ◌++◌, ◌∷◌, IfOk, OnOk, [], false, filter, get_or};
ghost use Rattle.std.specs.Prelude.{length, not, true};
ghost use Rattle.std.specs.List.{flat_map};
ghost use Rattle.dep_atom.specs.Ids.{id_text};
ghost use Rattle.dep_atom.specs.Values.{atom_value};
ghost use Rattle.choice_law.specs.Universe.{conflicts};
ghost use Rattle.dep_tree.specs.Grammar.{is_block};
ghost use Rattle.choice_tree.specs.Candidates.{free_line};
ghost use Rattle.choice_tree.specs.Open.{obligation_of};
ghost use Rattle.choice_tree.specs.Options.{beside, decisions, in_order, needs, others, ousting};
ghost use Rattle.choice_tree.specs.Options.{leaving, served, serving};
ghost use Rattle.choice_tree.specs.Places.{no_place, package_in};
ghost use Rattle.choice_tree.specs.Seen.{places_of};
ghost use Rattle.choice_tree.specs.Views.{decisions_of, offer_of};

use crate::around::Around;
use crate::filtering::{harmless, matching, ousting};
use crate::gathering::{free_of, free_offer, push_free, push_line};
use crate::obligation::Obligation;
use crate::place::Place;
use crate::ranking::push_in_order;
use crate::repeats::once;
use crate::universe::Offer;
use crate::value::{Decision, Value};
use dep_atom::Atom;
use dep_tree::is_block;
use pkg_state::{Class, Pkg};
use pms_names::Flags;
use std::alloc::{AllocError, Global};

fn push_others(
    alloc: Global,
    update: bool,
    places: &[Place<'_>],
    line: usize,
    out: &mut Vec<Decision>,
) -> Result<(), AllocError>
    ensures { OnOk result (decisions_of out.new.items ≡
        decisions_of out.old.items ++ others update (places_of places.now) line) }
{
    let Some(offer) = free_offer(places, line) else {
        return Ok(());
    };
    let mut candidates = Vec::new(alloc);
    push_line(false, line, offer, &mut candidates)?;
    push_in_order(alloc, update, &candidates, out)?;
    push_leaving(line, offer, out)
}

fn push_leaving(line: usize, offer: &Offer, out: &mut Vec<Decision>) -> Result<(), AllocError>
    ensures { OnOk result (decisions_of out.new.items ≡ decisions_of out.old.items ++
        leaving line (offer_of offer.now).installed) }
{
    if offer.installed.is_some() {
        let value = Value::Absent;
        out.push(Decision { line, value })?;
    }
    Ok(())
}

/// Puts what the atom matches, of all lines that aren't decided, behind the decisions.
fn push_served(
    alloc: Global,
    update: bool,
    around: &Around<'_, '_>,
    atom: &Atom,
    asker: &Flags,
    out: &mut Vec<Decision>,
) -> Result<(), AllocError>
    ensures { OnOk result (decisions_of out.new.items ≡ decisions_of out.old.items ++
        served update (places_of around.now.places.now) asker.now (atom_value atom.now)) }
{
    let lines = around.lines_named(atom.name.package.text());
    let free = free_of(alloc, around.places, lines)?;
    let found = matching(alloc, &free, atom, asker)?;
    push_in_order(alloc, update, &found, out)?;
    Ok(())
}

fn push_leaf(
    alloc: Global,
    update: bool,
    around: &Around<'_, '_>,
    atom: &Atom,
    asker: &Flags,
    out: &mut Vec<Decision>,
) -> Result<(), AllocError>
    ensures { OnOk result (decisions_of out.new.items ≡ decisions_of out.old.items ++
        flat_map (λ a. served update (places_of around.now.places.now) asker.now a)
        (filter (λ a. not (is_block a)) (atom_value atom.now ∷ []))) }
{
    if is_block(atom) {
        return Ok(());
    }
    push_served(alloc, update, around, atom, asker, out)
}

fn push_needs(
    alloc: Global,
    update: bool,
    around: &Around<'_, '_>,
    owner: &Pkg,
    class: Class,
    out: &mut Vec<Decision>,
) -> Result<(), AllocError>
    ensures { OnOk result (decisions_of out.new.items ≡ decisions_of out.old.items ++
        flat_map
        (λ a. served update (places_of around.now.places.now) owner.now.facts.enabled a)
        (needs class owner.now)) }
{
    let leaves = owner.tree(class).leaves(alloc, &owner.facts.enabled)?;
    for &atom in &leaves {
        push_leaf(alloc, update, around, atom, &owner.facts.enabled, out)?;
    }
    Ok(())
}

fn push_serving(
    alloc: Global,
    update: bool,
    around: &Around<'_, '_>,
    line: usize,
    class: Class,
    out: &mut Vec<Decision>,
) -> Result<(), AllocError>
    ensures { OnOk result (decisions_of out.new.items ≡ decisions_of out.old.items ++
        serving update (places_of around.now.places.now) class
        (package_in (get_or (places_of around.now.places.now) line no_place))) }
{
    if line >= around.places.len() {
        return Ok(());
    }
    match &around.places[line].standing {
        None => Ok(()),
        Some(standing) => push_needs(alloc, update, around, standing.owner, class, out),
    }
}

fn push_ousting_of_line(
    alloc: Global,
    update: bool,
    places: &[Place<'_>],
    line: usize,
    gone: &Pkg,
    text: &str,
    out: &mut Vec<Decision>,
) -> Result<(), AllocError>
    requires line { line < length places.now }
    requires text { text.now ≡ id_text gone.now.facts.id }
    ensures { OnOk result (decisions_of out.new.items ≡ decisions_of out.old.items ++
        in_order update (filter (λ x. conflicts true x.is gone.now)
        (free_line false (places_of places.now) line))) }
{
    let mut candidates = Vec::new(alloc);
    push_free(false, places, line, &mut candidates)?;
    let found = ousting(alloc, &candidates, gone, text)?;
    push_in_order(alloc, update, &found, out)
}

fn push_ousting_of(
    alloc: Global,
    update: bool,
    places: &[Place<'_>],
    gone: &Pkg,
    out: &mut Vec<Decision>,
) -> Result<(), AllocError>
    ensures { OnOk result (decisions_of out.new.items ≡ decisions_of out.old.items ++
        ousting update (places_of places.now) (Some gone.now)) }
{
    let text = gone.facts.id.print(alloc)?;
    for line in 0..places.len() {
        push_ousting_of_line(alloc, update, places, line, gone, text.as_str(), out)?;
    }
    Ok(())
}

fn push_ousting(
    alloc: Global,
    update: bool,
    places: &[Place<'_>],
    line: usize,
    out: &mut Vec<Decision>,
) -> Result<(), AllocError>
    ensures { OnOk result (decisions_of out.new.items ≡ decisions_of out.old.items ++
        ousting update (places_of places.now)
        (get_or (places_of places.now) line no_place).offer.installed) }
{
    if line >= places.len() {
        return Ok(());
    }
    let offer = places[line].offer;
    match &offer.installed {
        None => Ok(()),
        Some(gone) => push_ousting_of(alloc, update, places, gone, out),
    }
}

/// What may stand on the second line beside what stands on the first.
pub fn beside(
    alloc: Global,
    update: bool,
    places: &[Place<'_>],
    line: usize,
    other: usize,
) -> Result<Vec<Decision>, AllocError>
    ensures { IfOk result (λ v. decisions_of v.items ≡
        beside update (places_of places.now) line other) }
{
    let mut out = Vec::new(alloc);
    let Some(offer) = free_offer(places, other) else {
        return Ok(out);
    };
    let mut candidates = Vec::new(alloc);
    push_line(true, other, offer, &mut candidates)?;
    let found = harmless(alloc, places, line, &candidates)?;
    push_in_order(alloc, update, &found, &mut out)?;
    let value = Value::Absent;
    out.push(Decision { line: other, value })?;
    Ok(out)
}

/// The decisions that may be added for what is open, in their order.
pub fn decisions(
    alloc: Global,
    update: bool,
    around: &Around<'_, '_>,
    obligation: &Obligation<'_>,
) -> Result<Vec<Decision>, AllocError>
    ensures { IfOk result (λ v. decisions_of v.items ≡
        decisions update (places_of around.now.places.now) (obligation_of obligation.now)) }
{
    let mut out = Vec::new(alloc);
    let places = around.places;
    match *obligation {
        Obligation::Wanted(atom) => {
            push_served(alloc, update, around, atom, &Flags::new(alloc), &mut out)?;
        }
        Obligation::Required(line) | Obligation::Conflict(line, _) => {
            push_others(alloc, update, places, line, &mut out)?;
        }
        Obligation::Tree(line, class) => {
            push_serving(alloc, update, around, line, class, &mut out)?;
            push_others(alloc, update, places, line, &mut out)?;
            return once(alloc, &out);
        }
        Obligation::Absence(line) => {
            push_ousting(alloc, update, places, line, &mut out)?;
        }
    }
    Ok(out)
}
