//! Checks of plans, and of repairs.

ghost use Rattle.plan_text.specs.Plans.{plan_value};
ghost use Rattle.plan_text.specs.Texts.{IsPlan};

use crate::groups::plan;
use crate::reading::packages;
use crate::refused::refused_text;
use ask_lines::{cut, unescaped};
use pkg_state::Pkg;
use plan_check::{Asked, check};
use plan_lives::Plan;
use plan_model::{asks_of, link};
use plan_repair::check_repair;
use plan_rules::PlanRefused;
use std::alloc::Global;

/// `ok`, or the rule that is broken.
fn told(alloc: Global, answer: Result<(), PlanRefused>) -> Option<String> {
    match answer {
        Ok(()) => String::from_str(alloc, "ok").ok(),
        Err(refused) => refused_text(alloc, refused),
    }
}

fn check_over(alloc: Global, start: &[Pkg], groups: &str) -> Option<String> {
    let plan = plan(alloc, groups)?;
    told(alloc, check(alloc, start, &plan, &[]))
}

/// Whether the plan of these groups is accepted over the packages that are installed.
pub(crate) fn check_groups(alloc: Global, parts: &str) -> Option<String> {
    let (installed, groups) = cut(parts, '\t');
    let start = packages(alloc, installed)?;
    check_over(alloc, &start, groups)
}

fn repair_over(alloc: Global, start: &[Pkg], plan: &Plan, asks: &[Asked<'_>]) -> Option<String> {
    if plan.groups().len() > 1 {
        return None;
    }
    told(alloc, check_repair(alloc, start, plan, asks))
}

/// What becomes of a linked text.
fn repair_linked(
    alloc: Global,
    start: &[Pkg],
    offered: &[Pkg],
    text: &plan_text::Plan,
) -> Option<String>
    requires form { IsPlan (plan_value text.now) }
{
    let plan = link(alloc, text, offered).ok()?;
    let asks = asks_of(alloc, text, offered).ok()?;
    repair_over(alloc, start, &plan, &asks)
}

/// The same of a text; none where it has a fault or names what isn't offered.
fn repair_text(alloc: Global, start: &[Pkg], offered: &[Pkg], text: &str) -> Option<String> {
    let text = plan_text::Plan::parse(alloc, text).ok()?;
    repair_linked(alloc, start, offered, &text)
}

fn repair_offered(alloc: Global, start: &[Pkg], offered: &str, text: &str) -> Option<String> {
    let text = unescaped(alloc, text).ok()?;
    let offered = packages(alloc, offered)?;
    repair_text(alloc, start, &offered, text.as_str())
}

/// Whether the plan of a text of at most one group repairs the packages that are installed.
pub(crate) fn repair(alloc: Global, parts: &str) -> Option<String> {
    let (installed, parts) = cut(parts, '\t');
    let (offered, text) = cut(parts, '\t');
    let start = packages(alloc, installed)?;
    repair_offered(alloc, &start, offered, text)
}
