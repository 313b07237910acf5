ghost use Rattle.std.specs.Prelude.{◌≡◌, ◌≤◌, ◌++◌, ◌∷◌, IfOk, OnOk, drop, length, take};
ghost use Rattle.std.specs.Prelude.{if◌then◌else◌};
ghost use Rattle.std.specs.declared.cmp.Ordering.TheVariants.{Equal};
ghost use Rattle.choice_tree.specs.Candidates.{kept_first, put, rank, ranked};
ghost use Rattle.choice_tree.specs.Options.{in_order};
ghost use Rattle.choice_tree.specs.Shown.{candidate_of, candidates_of};
ghost use Rattle.choice_tree.specs.Views.{decisions_of, value_of};

use crate::candidate::Candidate;
use crate::value::{Decision, Value};
use std::alloc::{AllocError, Global};
use std::cmp::Ordering;

fn kept_first(one: Value, other: Value) -> Ordering
    ensures { result ≡ kept_first (value_of one) (value_of other) }
{
    match (one, other) {
        (Value::Keep, Value::Keep) => Ordering::Equal,
        (Value::Keep, _) => Ordering::Less,
        (_, Value::Keep) => Ordering::Greater,
        _ => Ordering::Equal,
    }
}

fn at_once(update: bool, kept: Ordering) -> Ordering
    ensures { result ≡ (if update then Equal else kept) }
{
    if update { Ordering::Equal } else { kept }
}

fn rank(update: bool, one: &Candidate<'_>, other: &Candidate<'_>) -> Ordering
    ensures { result ≡ rank update (candidate_of one.now) (candidate_of other.now) }
{
    let kept = kept_first(one.value, other.value);
    let (first, second) = (one.owner, other.owner);
    let version = second.facts.id.version.compare(&first.facts.id.version);
    let text = first
        .facts
        .id
        .version
        .text()
        .cmp(second.facts.id.version.text());
    at_once(update, kept).then(version.then(kept.then(text)))
}

/// Where one more goes: before the first that comes later.
fn place_for(update: bool, ranked: &[Candidate<'_>], one: &Candidate<'_>) -> usize
    ensures within { result ≤ length ranked.now }
    ensures put { put update (candidate_of one.now) (candidates_of ranked.now) ≡
        take result (candidates_of ranked.now) ++ candidate_of one.now ∷
        drop result (candidates_of ranked.now) }
{
    for (place, other) in ranked.iter().enumerate() {
        if rank(update, other, one).is_gt() {
            return place;
        }
    }
    ranked.len()
}

fn put<'a>(
    update: bool,
    ranked: &mut Vec<Candidate<'a>>,
    one: Candidate<'a>,
) -> Result<(), AllocError>
    ensures { OnOk result (candidates_of ranked.new.items ≡
        put update (candidate_of one.entry) (candidates_of ranked.old.items)) }
{
    let place = place_for(update, ranked, &one);
    ranked.insert(place, one)?;
    Ok(())
}

fn ranked<'a>(
    alloc: Global,
    update: bool,
    candidates: &[Candidate<'a>],
) -> Result<Vec<Candidate<'a>>, AllocError>
    ensures { IfOk result (λ v. candidates_of v.items ≡
        ranked update (candidates_of candidates.now)) }
{
    let mut out = Vec::new(alloc);
    for &candidate in candidates {
        put(update, &mut out, candidate)?;
    }
    Ok(out)
}

/// Puts the candidates behind the decisions, by their ranks.
pub(crate) fn push_in_order(
    alloc: Global,
    update: bool,
    candidates: &[Candidate<'_>],
    out: &mut Vec<Decision>,
) -> Result<(), AllocError>
    ensures { OnOk result (decisions_of out.new.items ≡
        decisions_of out.old.items ++ in_order update (candidates_of candidates.now)) }
{
    let ranked = ranked(alloc, update, candidates)?;
    for candidate in &ranked {
        let (line, value) = (candidate.line, candidate.value);
        out.push(Decision { line, value })?;
    }
    Ok(())
}
