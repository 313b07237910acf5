ghost use Rattle.std.specs.Prelude.{◌≡◌, ◌≢◌, [], ◌∷◌, ◌++◌, ℕ, List, map};
ghost use Rattle.std.specs.Prelude.{IfErr, IfOk, MatchOption, MatchResult};
ghost use Rattle.std.specs.List.{slice_split};
ghost use Rattle.plan_text.specs.Drafts.{all_groups, current_group, whole_groups};
ghost use Rattle.plan_text.specs.Faults.{IsFaulty, TellsLine};
ghost use Rattle.plan_text.specs.Lines.{IsLine};
ghost use Rattle.plan_text.specs.Parsing.{AreAllRead, ReadsNext, StopsAtFault};
ghost use Rattle.plan_text.specs.Plans.{GroupValue, plan_value};
ghost use Rattle.plan_text.specs.Reading.{is_newline, line_value};
ghost use Rattle.plan_text.specs.Standing.{behind, standing_value};
ghost use Rattle.plan_text.specs.Texts.{IsPlan, plan_text};
ghost use Rattle.plan_text.specs.declared.fault.PlanTextFault.TheVariants.{Memory};

use crate::draft::{Draft, with_line};
use crate::fault::PlanTextFault;
use crate::faulty::fault_at;
use crate::line::{Line, read_line};
use crate::plan::Plan;
use crate::standing::{Place, Standing, follows, may_end};
use std::alloc::{AllocError, Global};

/// All lines of a text, once they are read.
#[derive(Drop)]
pub(crate) struct Read {
    pub(crate) draft: Draft,
    pub(crate) groups: u32,
    pub(crate) place: Place,
}

impl Plan {
    /// Reads the whole text as one plan.
    pub fn parse(alloc: Global, text: &str) -> Result<Plan, PlanTextFault>
        ensures found { IfOk result (λ p. IsPlan (plan_value p) ×
            (text.now ≡ plan_text (plan_value p))) }
        ensures only { (p : List GroupValue) → IsPlan p → text.now ≡ plan_text p →
            MatchResult result (λ r. plan_value r ≡ p) (λ e. e ≡ Memory) }
        ensures fault { IfErr result (λ e. e ≢ Memory → (n groups : ℕ) ×
            IsFaulty text.now n groups × TellsLine groups n e) }
    {
        let pieces = pieces(alloc, text)?;
        let Some((lines, tail)) = split_tail(&pieces) else {
            unreachable!()
        };
        let read = match read_lines(alloc, lines) {
            Ok(read) => read,
            Err(fault) => return Err(fault),
        };
        if !tail.is_empty() {
            return Err(fault_at(alloc, read.groups, lines.len(), tail));
        }
        if !may_end(read.place) {
            return Err(fault_at(alloc, read.groups, lines.len(), tail));
        }
        finish(read.draft)
    }
}

/// What stands between the newlines of a text.
fn pieces(alloc: Global, text: &str) -> Result<Vec<&str>, AllocError>
    ensures { IfOk result (λ v. map (λ w. w.now) v.items ≡ slice_split is_newline text.now) }
{
    text.split('\n').collect(alloc)
}

/// The last piece, and those before it.
fn split_tail<'a>(pieces: &'a [&'a str]) -> Option<(&'a [&'a str], &'a str)>
    ensures { MatchOption result (map (λ w. w.now) pieces.now ≡ [])
        (λ r. map (λ w. w.now) pieces.now ≡ map (λ w. w.now) r.0.now ++ (r.1.now ∷ [])) }
{
    match pieces {
        [lines @ .., tail] => Some((lines, tail)),
        [] => None,
    }
}

fn read_lines(alloc: Global, texts: &[&str]) -> Result<Read, PlanTextFault>
    ensures found { IfOk result (AreAllRead (map (λ w. w.now) texts.now)) }
    ensures fault { IfErr result (λ e. e ≢ Memory →
        StopsAtFault (map (λ w. w.now) texts.now) e) }
{
    let mut draft = Draft {
        groups: Vec::new(alloc),
        current: None,
    };
    let mut standing = Standing {
        groups: 0,
        place: Place::Start,
        last: "",
    };
    for (at, text) in texts.iter().enumerate() {
        let Some(line) = read_next(alloc, &standing, text)? else {
            return Err(fault_at(alloc, standing.groups, at, text));
        };
        let next = standing.behind(&line, text);
        draft = with_line(alloc, &standing, draft, line)?;
        standing = next;
    }
    Ok(Read {
        draft,
        groups: standing.groups,
        place: standing.place,
    })
}

/// The line that a text is, if it is one that may follow.
fn read_next(alloc: Global, standing: &Standing<'_>, text: &str) -> Result<Option<Line>, AllocError>
    ensures { IfOk result (ReadsNext (standing_value standing.now) text.now) }
{
    let Some(line) = read_line(alloc, text)? else {
        return Ok(None);
    };
    if !follows(standing, &line, text) {
        return Ok(None);
    }
    Ok(Some(line))
}

fn finish(draft: Draft) -> Result<Plan, PlanTextFault>
    ensures groups { IfOk result (λ p. plan_value p ≡
        all_groups (whole_groups draft) (current_group draft)) }
    ensures err { IfErr result (λ e. e ≡ Memory) }
{
    let Draft {
        mut groups,
        current,
    } = draft;
    let Some(group) = current else {
        return Ok(Plan { groups });
    };
    groups.push(group)?;
    Ok(Plan { groups })
}
