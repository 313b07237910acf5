//! Texts of plans: read and printed, linked to the packages that are offered, and judged.

ghost use Rattle.plan_text.specs.Plans.{plan_value};
ghost use Rattle.plan_text.specs.Texts.{IsPlan};

use crate::linked::{fault_text, plan_text};
use crate::reading::packages;
use crate::refused::refused_text;
use ask_lines::{cut, unescaped};
use pkg_state::Pkg;
use plan_lives as lives;
use plan_model::{LinkFault, NotAccepted, accept, link};
use plan_text::{Plan, PlanTextFault};
use std::alloc::{AllocError, Global};

/// The fault, and the number of its line.
fn text_fault(alloc: Global, fault: PlanTextFault) -> Result<String, AllocError> {
    match fault {
        PlanTextFault::Line { line } => format!(in alloc; "Line {line}"),
        PlanTextFault::Number { line } => format!(in alloc; "Number {line}"),
        PlanTextFault::NotBefore { line } => format!(in alloc; "NotBefore {line}"),
        PlanTextFault::Limit => String::from_str(alloc, "Limit"),
        PlanTextFault::Memory => Err(AllocError),
    }
}

/// The text of a plan as it is printed, or its fault.
pub(crate) fn text(alloc: Global, text: &str) -> Option<String> {
    let text = unescaped(alloc, text).ok()?;
    match Plan::parse(alloc, text.as_str()) {
        Ok(plan) => plan.print(alloc).ok(),
        Err(fault) => text_fault(alloc, fault).ok(),
    }
}

fn told_link(alloc: Global, answer: Result<lives::Plan, LinkFault>) -> Option<String> {
    match answer {
        Ok(plan) => plan_text(alloc, plan),
        Err(fault) => fault_text(alloc, fault),
    }
}

fn link_over(alloc: Global, offered: &[Pkg], text: &str) -> Option<String> {
    match Plan::parse(alloc, text) {
        Ok(plan) => told_link(alloc, link(alloc, &plan, offered)),
        Err(fault) => text_fault(alloc, fault).ok(),
    }
}

/// The plan that a text stands for, over the packages that are offered.
pub(crate) fn link_text(alloc: Global, parts: &str) -> Option<String> {
    let (offered, text) = cut(parts, '\t');
    let text = unescaped(alloc, text).ok()?;
    let offered = packages(alloc, offered)?;
    link_over(alloc, &offered, text.as_str())
}

fn told_fault(alloc: Global, fault: NotAccepted) -> Option<String> {
    match fault {
        NotAccepted::Unlinked(fault) => fault_text(alloc, fault),
        NotAccepted::Refused(refused) => refused_text(alloc, refused),
        NotAccepted::Memory => None,
    }
}

fn told_plan(alloc: Global, start: &[Pkg], offered: &[Pkg], text: &Plan) -> Option<String>
    requires { IsPlan (plan_value text.now) }
{
    match accept(alloc, start, offered, text) {
        Ok(plan) => plan_text(alloc, plan),
        Err(fault) => told_fault(alloc, fault),
    }
}

fn judge_over(alloc: Global, start: &[Pkg], offered: &[Pkg], text: &str) -> Option<String> {
    match Plan::parse(alloc, text) {
        Ok(text) => told_plan(alloc, start, offered, &text),
        Err(fault) => text_fault(alloc, fault).ok(),
    }
}

fn judge_offered(alloc: Global, start: &[Pkg], offered: &str, text: &str) -> Option<String> {
    let text = unescaped(alloc, text).ok()?;
    let offered = packages(alloc, offered)?;
    judge_over(alloc, start, &offered, text.as_str())
}

/// The plan of a text, if it is accepted over the packages that are installed.
pub(crate) fn judge(alloc: Global, parts: &str) -> Option<String> {
    let (installed, parts) = cut(parts, '\t');
    let (offered, text) = cut(parts, '\t');
    let start = packages(alloc, installed)?;
    judge_offered(alloc, &start, offered, text)
}
