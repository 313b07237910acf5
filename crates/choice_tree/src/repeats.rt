ghost use Rattle.std.specs.Prelude.{◌≡◌, IfOk, []};
ghost use Rattle.choice_tree.specs.Options.{is_among, once_onto};
ghost use Rattle.choice_tree.specs.Views.{decisions_of, value_of};

use crate::value::Decision;
use std::alloc::{AllocError, Global};

fn is_among(decisions: &[Decision], one: Decision) -> bool
    ensures { result ≡ is_among (one.line, value_of one.value) (decisions_of decisions.now) }
{
    for decision in decisions {
        if decision.line == one.line && decision.value == one.value {
            return true;
        }
    }
    false
}

/// Each decision once, where it is first.
pub(crate) fn once(alloc: Global, decisions: &[Decision]) -> Result<Vec<Decision>, AllocError>
    ensures { IfOk result (λ v. decisions_of v.items ≡ once_onto [] (decisions_of decisions.now)) }
{
    let mut out: Vec<Decision> = Vec::new(alloc);
    for decision in decisions {
        if !is_among(&out, *decision) {
            out.push(*decision)?;
        }
    }
    Ok(out)
}
