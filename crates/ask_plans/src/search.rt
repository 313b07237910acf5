//! The tree of choices, and the search for the first good one.
//!
//! A choice is its decisions, the oldest first, with a space before each: `0=v1` is the second
//! variant of the first line, `0=+` what is installed there, and `0=-` nothing. The tree is written
//! in preorder, each choice with a colon and what is open of it, or `good`, and a semicolon.

use crate::answers::push_number;
use crate::universes::universe;
use ask_lines::cut;
use choice_tree::{Choice, Decision, Obligation, Universe, Value};
use choice_walk::{first_open, options};
use resolver::{ResolveFault, resolve};
use std::alloc::{AllocError, Global};

/// The most choices of a tree that are told.
const MOST: usize = 20;

fn decision_text(alloc: Global, decision: Decision) -> Result<String, AllocError> {
    let line = decision.line;
    match decision.value {
        Value::Keep => format!(in alloc; " {line}=+"),
        Value::Absent => format!(in alloc; " {line}=-"),
        Value::Variant(place) => format!(in alloc; " {line}=v{place}"),
    }
}

fn push_decision(alloc: Global, out: &mut String, decision: Decision) -> Result<(), AllocError> {
    let text = decision_text(alloc, decision)?;
    out.push_str(text.as_str())
}

fn push_choice(alloc: Global, out: &mut String, choice: &Choice) -> Result<(), AllocError> {
    for decision in choice.decisions().iter().rev() {
        push_decision(alloc, out, *decision)?;
    }
    Ok(())
}

fn push_line(alloc: Global, out: &mut String, rule: &str, line: usize) -> Result<(), AllocError> {
    out.push_str(rule)?;
    push_number(alloc, out, line)
}

fn push_obligation(
    alloc: Global,
    out: &mut String,
    obligation: &Obligation<'_>,
) -> Result<(), AllocError> {
    match *obligation {
        Obligation::Wanted(_) => out.push_str("wanted"),
        Obligation::Required(line) => push_line(alloc, out, "required", line),
        Obligation::Conflict(line, other) => {
            push_line(alloc, out, "conflict", line)?;
            push_number(alloc, out, other)
        }
        Obligation::Tree(line, class) => push_line(alloc, out, class.word(), line),
        Obligation::Absence(line) => push_line(alloc, out, "absence", line),
    }
}

/// Adds the choice and what is open of it, and gives its options.
fn push_node(
    alloc: Global,
    out: &mut String,
    universe: &Universe,
    choice: &Choice,
) -> Result<Vec<Choice>, AllocError> {
    push_choice(alloc, out, choice)?;
    let Some(obligation) = first_open(alloc, universe, choice)? else {
        out.push_str(": good;")?;
        return Ok(Vec::new(alloc));
    };
    out.push_str(": ")?;
    push_obligation(alloc, out, &obligation)?;
    out.push_str(";")?;
    options(alloc, universe, choice, &obligation)
}

fn walk(alloc: Global, universe: &Universe) -> Result<String, AllocError> {
    let mut out = String::new(alloc);
    let mut pending = Vec::new(alloc);
    pending.push(Choice::new(alloc))?;
    for _ in 0..MOST {
        let Some(choice) = pending.pop() else { break };
        let mut next = push_node(alloc, &mut out, universe, &choice)?;
        next.reverse();
        pending.append(&mut next)?;
    }
    Ok(out)
}

/// The tree of choices of a universe.
pub(crate) fn walk_lines(alloc: Global, parts: &str) -> Option<String> {
    let (how, parts) = cut(parts, '\t');
    let universe = universe(alloc, how == "update", parts)?;
    walk(alloc, &universe).ok()
}

fn choice_text(alloc: Global, choice: &Choice) -> Result<String, AllocError> {
    let mut out = String::new(alloc);
    push_choice(alloc, &mut out, choice)?;
    Ok(out)
}

fn refuted_text(alloc: Global, refuted: &[Choice]) -> Result<String, AllocError> {
    let mut out = String::from_str(alloc, "limit")?;
    for choice in refuted {
        out.push_str("|")?;
        push_choice(alloc, &mut out, choice)?;
    }
    Ok(out)
}

fn fault_text(alloc: Global, fault: ResolveFault) -> Result<String, AllocError> {
    match fault {
        ResolveFault::NoSolution { .. } => String::from_str(alloc, "none"),
        ResolveFault::BacktrackLimit { refuted } => refuted_text(alloc, &refuted),
        ResolveFault::Memory => Err(AllocError),
    }
}

/// The choice that is found, or why there is none.
pub(crate) fn resolve_over(
    alloc: Global,
    universe: &Universe,
    limit: usize,
) -> Result<String, AllocError> {
    match resolve(alloc, universe, limit) {
        Ok(choice) => choice_text(alloc, &choice),
        Err(fault) => fault_text(alloc, fault),
    }
}

/// The choice that is found in a universe, where so many may be tried in vain.
pub(crate) fn resolve_lines(alloc: Global, parts: &str) -> Option<String> {
    let (how, parts) = cut(parts, '\t');
    let (limit, parts) = cut(parts, '\t');
    let limit = limit.parse::<usize>().ok()?;
    let universe = universe(alloc, how == "update", parts)?;
    resolve_over(alloc, &universe, limit).ok()
}
