ghost use Rattle.std.specs.Prelude.{◌≡◌, ◌++◌, ◌+◌, ◌∷◌, [], ℕ, IfOk, OnOk, length};
ghost use Rattle.std.specs.Option.{option_map};
ghost use Rattle.choice_law.specs.Tree.{Choice as Decisions, decided};
ghost use Rattle.choice_tree.specs.Views.{decisions_of, value_of};
ghost use Rattle.choice_walk.specs.Marks.{AreMarks};

use choice_tree::{Choice, Decision, Value};
use std::alloc::{AllocError, Global};

/// A choice with what is decided of each of so many lines, so that it is looked up.
#[derive(Drop)]
pub(crate) struct Marked {
    pub(crate) choice: Choice,
    marks: Vec<Option<Value>>,
    ghost are_marks: { AreMarks (length marks.items) choice marks.items },
}

impl Marked {
    pub(crate) fn new(alloc: Global, choice: Choice, lines: usize) -> Result<Marked, AllocError>
        ensures { IfOk result (λ marked. marked.choice ≡ choice) }
    {
        let marks = marks(alloc, choice.decisions(), lines)?;
        Ok(Marked { choice, marks })
    }

    /// What is decided of a line, if anything is.
    pub(crate) fn decided(&self, line: usize) -> Option<Value>
        ensures { option_map value_of result ≡ decided self.now.choice line }
    {
        if line < self.marks.len() {
            return self.marks[line];
        }
        self.choice.decided(line)
    }
}

/// What is decided of each of so many lines, if anything is, with one look at each decision. They
/// stand the newest first, and the newest of a line counts.
pub(crate) fn marks(
    alloc: Global,
    decisions: &[Decision],
    lines: usize,
) -> Result<Vec<Option<Value>>, AllocError>
    ensures { IfOk result (λ v. AreMarks lines (decisions_of decisions.now) v.items) }
{
    let mut marks = unmarked(alloc, lines)?;
    for decision in decisions {
        mark(&mut marks, decision);
    }
    Ok(marks)
}

fn unmarked(alloc: Global, lines: usize) -> Result<Vec<Option<Value>>, AllocError>
    ensures { IfOk result (λ v. AreMarks lines [] v.items) }
{
    let mut marks = Vec::with_capacity(alloc, lines)?;
    for _ in 0..lines {
        push_none(&mut marks)?;
    }
    Ok(marks)
}

fn push_none(marks: &mut Vec<Option<Value>>) -> Result<(), AllocError>
    ensures { OnOk result ((count : ℕ) → AreMarks count [] marks.old.items →
        AreMarks (count + 1) [] marks.new.items) }
{
    marks.push(None)?;
    Ok(())
}

/// Marks the line of a decision that is older than those that are marked.
fn mark(marks: &mut Vec<Option<Value>>, decision: &Decision)
    ensures { (count : ℕ) (newer : Decisions) → AreMarks count newer marks.old.items →
        AreMarks count (newer ++ (decision.now.line, value_of decision.now.value) ∷ [])
        marks.new.items }
{
    if decision.line >= marks.len() {
        return;
    }
    if marks[decision.line].is_some() {
        return;
    }
    marks[decision.line] = Some(decision.value);
}
