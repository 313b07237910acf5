ghost use Rattle.std.specs.Prelude.{◌≡◌, ◌++◌, ◌∷◌, [], IfNone, IfOk, IfSome, List};
ghost use Rattle.std.specs.Option.{option_map};
ghost use Rattle.choice_law.specs.Tree.{decided};
ghost use Rattle.choice_tree.specs.Views.{value_of};
ghost use Rattle.choice_walk.specs.Way.{here};
ghost use Rattle.choice_walk.specs.declared.turn.Turn.{Turn as TheTurn};

use crate::turn::Turn;
use choice_tree::{Choice, Value};
use std::alloc::{AllocError, Global};

/// What the newest decision of a line says, with a look at all of them.
pub(crate) fn newest(trail: &[Turn], line: usize) -> Option<Value>
    ensures { option_map value_of result ≡ decided (here trail.now) line }
{
    let mut found = None;
    for turn in trail {
        if turn.decision.line == line {
            found = Some(turn.decision.value);
        }
    }
    found
}

/// The newest decision.
pub(crate) fn last(trail: &[Turn]) -> Option<Turn>
    ensures some { IfSome result (λ t. (before : List TheTurn) × (trail.now ≡ before ++ t ∷ [])) }
    ensures none { IfNone result (trail.now ≡ []) }
{
    match trail.last() {
        Some(turn) => Some(*turn),
        None => None,
    }
}

/// The choice after these decisions.
pub(crate) fn choice_at(alloc: Global, trail: &[Turn]) -> Result<Choice, AllocError>
    ensures { IfOk result (λ choice. choice ≡ here trail.now) }
{
    let mut decisions = Vec::new(alloc);
    for turn in trail {
        decisions.push(turn.decision)?;
    }
    Ok(Choice::of(decisions))
}
