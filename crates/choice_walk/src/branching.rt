ghost use Rattle.std.specs.Prelude.{◌≡◌, ◌++◌, ◌∷◌, IfOk, OnOk, map};
ghost use Rattle.std.specs.Option.{option_map};
ghost use Rattle.choice_law.specs.Tree.{Choice as Decisions, decided, held};
ghost use Rattle.choice_law.specs.Universe.{as_is};
ghost use Rattle.choice_tree.specs.Open.{obligation_of};
ghost use Rattle.choice_tree.specs.Options.{options, second_part};
ghost use Rattle.choice_tree.specs.Places.{places};
ghost use Rattle.choice_tree.specs.Seen.{places_of};
ghost use Rattle.choice_tree.specs.Steps.{after, held_on};
ghost use Rattle.choice_tree.specs.Views.{decisions_of, universe_of, value_of};
ghost use Rattle.choice_walk.specs.Way.{Holds};

use crate::walk::Walk;
use choice_tree::{
    Around, Choice, Decision, Obligation, Place, Step, Universe, Value, beside, decisions,
};
use std::alloc::{AllocError, Global};

fn push_steps(
    held: Option<Decision>,
    decisions: &[Decision],
    out: &mut Vec<Step>,
) -> Result<(), AllocError>
    ensures { OnOk result ((c : Decisions) → map (after c) out.new.items ≡
        map (after c) out.old.items
        ++ map (λ d. d ∷ held_on held c) (decisions_of decisions.now)) }
{
    for decision in decisions {
        let decision = *decision;
        out.push(Step { held, decision })?;
    }
    Ok(())
}

fn as_is(universe: &Universe, line: usize) -> Value
    ensures { value_of result ≡ as_is (universe_of universe.now) line }
{
    match universe.offers.get(line) {
        Some(offer) => offer.as_is(),
        None => Value::Absent,
    }
}

/// What holds a line as it is, of which this is decided.
pub(crate) fn held_line(universe: &Universe, value: Option<Value>, line: usize) -> Option<Decision>
    ensures { (c : Decisions) → option_map value_of value ≡ decided c line →
        held_on result c ≡ held (universe_of universe.now) c line }
{
    match value {
        Some(_) => None,
        None => {
            let value = as_is(universe, line);
            Some(Decision { line, value })
        }
    }
}

// In a conflict the second line may be decided too, beside the first as it is.
fn push_second(
    alloc: Global,
    universe: &Universe,
    seen: &[Place<'_>],
    held: Option<Decision>,
    obligation: &Obligation<'_>,
    out: &mut Vec<Step>,
) -> Result<(), AllocError>
    ensures { OnOk result ((c : Decisions) →
        places_of seen.now ≡ places (universe_of universe.now) c →
        Holds (universe_of universe.now) c (obligation_of obligation.now) held →
        map (after c) out.new.items ≡ map (after c) out.old.items
        ++ second_part universe.now.update (universe_of universe.now) c
        (obligation_of obligation.now)) }
{
    match *obligation {
        Obligation::Conflict(line, other) => {
            let second = beside(alloc, universe.update, seen, line, other)?;
            push_steps(held, &second, out)?;
            Ok(())
        }
        _ => Ok(()),
    }
}

/// The steps to the options of a choice, where all lines are at hand, and what holds the first line
/// of a conflict.
pub(crate) fn steps_of(
    alloc: Global,
    universe: &Universe,
    around: &Around<'_, '_>,
    held: Option<Decision>,
    obligation: &Obligation<'_>,
) -> Result<Vec<Step>, AllocError>
    ensures { IfOk result (λ v. (c : Decisions) →
        places_of around.now.places.now ≡ places (universe_of universe.now) c →
        Holds (universe_of universe.now) c (obligation_of obligation.now) held →
        map (after c) v.items ≡ options universe.now.update (universe_of universe.now) c
        (obligation_of obligation.now)) }
{
    let mut out = Vec::new(alloc);
    let first = decisions(alloc, universe.update, around, obligation)?;
    push_steps(None, &first, &mut out)?;
    push_second(alloc, universe, around.places, held, obligation, &mut out)?;
    Ok(out)
}

fn options_by(alloc: Global, choice: &Choice, steps: &[Step]) -> Result<Vec<Choice>, AllocError>
    ensures { IfOk result (λ v. v.items ≡ map (after choice.now) steps.now) }
{
    let mut out = Vec::new(alloc);
    for step in steps {
        let option = choice.after(alloc, *step)?;
        out.push(option)?;
    }
    Ok(out)
}

/// The options of a choice for what is open of it, in the order in which they are tried: values of
/// lines that aren't decided, the greater version first, of equal ones what is kept, then the
/// smaller text, the earlier line and the earlier variant. Without an update what is kept goes
/// first. To leave a line is tried last.
pub fn options(
    alloc: Global,
    universe: &Universe,
    choice: &Choice,
    obligation: &Obligation<'_>,
) -> Result<Vec<Choice>, AllocError>
    ensures { IfOk result (λ v. v.items ≡ options universe.now.update
        (universe_of universe.now) choice.now (obligation_of obligation.now)) }
{
    let walk = Walk::to(alloc, universe, choice)?;
    let steps = walk.steps(alloc, obligation)?;
    let found = options_by(alloc, choice, &steps)?;
    Ok(found)
}
