ghost use Rattle.std.specs.Prelude.{◌≡◌, ◌∷◌, IfOk, [], reverse};
ghost use Rattle.std.specs.Option.{option_map};
ghost use Rattle.choice_law.specs.Tree.{decided};
ghost use Rattle.choice_tree.specs.Steps.{after};
ghost use Rattle.choice_tree.specs.Views.{decisions_of, value_of};

use crate::step::Step;
use crate::value::{Decision, Value};
use std::alloc::{AllocError, Global};
use std::marker::Model;

/// Decisions on some lines. Contracts see the newest first.
#[derive(Debug, Drop)]
pub struct Choice {
    decisions: Vec<Decision>,
}

impl Model for Choice {
    ghost use Rattle.choice_law.specs.Tree.{Choice as Decisions};
    ghost use Rattle.choice_tree.specs.Views.{decisions_of};
    ghost use Rattle.choice_tree.specs.Codes.{decisions_code};

    ghost Value = { Decisions };

    ghost coded = { decisions_code };

    ghost view = { λ c. decisions_of c.decisions.items };
}

impl Choice {
    /// Nothing is decided.
    pub fn new(alloc: Global) -> Choice
        ensures { result ≡ [] }
    {
        Choice {
            decisions: Vec::new(alloc),
        }
    }

    /// These decisions, of which the newest comes last.
    pub fn of(mut decisions: Vec<Decision>) -> Choice
        ensures { result ≡ decisions_of (reverse decisions.items) }
    {
        decisions.reverse();
        Choice { decisions }
    }

    /// What is decided of a line, if anything is.
    pub fn decided(&self, line: usize) -> Option<Value>
        ensures { option_map value_of result ≡ decided self.now line }
    {
        decided_in(&self.decisions, line)
    }

    /// The choice with one more decision.
    pub fn with(&self, alloc: Global, line: usize, value: Value) -> Result<Choice, AllocError>
        ensures { IfOk result (λ more. more ≡ (line, value_of value) ∷ self.now) }
    {
        let decisions = with_more(alloc, Decision { line, value }, &self.decisions)?;
        Ok(Choice { decisions })
    }

    /// The option to which a step leads from here.
    pub fn after(&self, alloc: Global, step: Step) -> Result<Choice, AllocError>
        ensures { IfOk result (λ more. more ≡ after self.now step) }
    {
        let (line, value) = (step.decision.line, step.decision.value);
        match step.held {
            None => self.with(alloc, line, value),
            Some(held) => {
                let beside = self.with(alloc, held.line, held.value)?;
                beside.with(alloc, line, value)
            }
        }
    }

    /// A copy.
    pub fn try_clone(&self, alloc: Global) -> Result<Choice, AllocError>
        ensures { IfOk result (λ copy. copy ≡ self.now) }
    {
        let decisions = copied(alloc, &self.decisions)?;
        Ok(Choice { decisions })
    }

    /// The decisions, the newest first.
    pub fn decisions(&self) -> &[Decision]
        ensures { decisions_of result.now ≡ self.now }
    {
        &self.decisions
    }
}

fn decided_in(decisions: &[Decision], line: usize) -> Option<Value>
    ensures { option_map value_of result ≡ decided (decisions_of decisions.now) line }
{
    for decision in decisions {
        if decision.line == line {
            return Some(decision.value);
        }
    }
    None
}

fn with_more(
    alloc: Global,
    newest: Decision,
    decisions: &[Decision],
) -> Result<Vec<Decision>, AllocError>
    ensures { IfOk result (λ v. v.items ≡ newest ∷ decisions.now) }
{
    let mut more = Vec::with_capacity(alloc, 1)?;
    more.push(newest)?;
    for decision in decisions {
        more.push(*decision)?;
    }
    Ok(more)
}

fn copied(alloc: Global, decisions: &[Decision]) -> Result<Vec<Decision>, AllocError>
    ensures { IfOk result (λ v. v.items ≡ decisions.now) }
{
    let mut copy = Vec::new(alloc);
    for decision in decisions {
        copy.push(*decision)?;
    }
    Ok(copy)
}
