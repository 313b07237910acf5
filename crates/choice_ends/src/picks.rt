ghost use Rattle.std.specs.Prelude.{◌≡◌, ◌++◌, IfOk, OnOk};
ghost use Rattle.std.specs.Option.{option_map};
ghost use Rattle.choice_law.specs.Universe.{offer_at};
ghost use Rattle.choice_tree.specs.Views.{decisions_of, offer_of, universe_of, value_of};
ghost use Rattle.choice_ends.specs.Ends.{picked, picks_of, picks_on};

use crate::ends::{Fate, Pick};
use choice_tree::{Decision, Offer, Universe, Value};
use pkg_state::Pkg;
use std::alloc::{AllocError, Global};

/// What each decision is about, in their order.
pub(crate) fn picks_of(
    alloc: Global,
    universe: &Universe,
    decisions: &[Decision],
) -> Result<Vec<Pick>, AllocError>
    ensures { IfOk result (λ v. v.items ≡
        picks_of (universe_of universe.now) (decisions_of decisions.now)) }
{
    let mut picks = Vec::new(alloc);
    for decision in decisions {
        push_decision(universe, decision, &mut picks)?;
    }
    Ok(picks)
}

/// Puts what a decision is about behind the others. A line that the universe hasn't has nothing.
fn push_decision(
    universe: &Universe,
    decision: &Decision,
    picks: &mut Vec<Pick>,
) -> Result<(), AllocError>
    ensures { OnOk result (picks.new.items ≡ picks.old.items ++
        picks_on (offer_at (universe_of universe.now) decision.now.line)
        (value_of decision.now.value)) }
{
    if decision.line >= universe.offers.len() {
        return Ok(());
    }
    push_on(&universe.offers[decision.line], decision.value, picks)
}

fn push_on(offer: &Offer, value: Value, picks: &mut Vec<Pick>) -> Result<(), AllocError>
    ensures { OnOk result (picks.new.items ≡ picks.old.items ++
        picks_on (offer_of offer.now) (value_of value)) }
{
    match value {
        Value::Keep => push(offer.installed.as_ref(), Fate::Stays, picks),
        Value::Absent => push(offer.installed.as_ref(), Fate::Goes, picks),
        Value::Variant(_) => push(offer.package(value), Fate::Comes, picks),
    }
}

fn push(one: Option<&Pkg>, fate: Fate, picks: &mut Vec<Pick>) -> Result<(), AllocError>
    ensures { OnOk result (picks.new.items ≡ picks.old.items ++
        picked fate (option_map (λ p. p.now) one.entry)) }
{
    let Some(one) = one else {
        return Ok(());
    };
    let id = one.facts.id.try_clone()?;
    picks.push(Pick { id, fate })?;
    Ok(())
}
