//! Plans from short texts.
//!
//! A group is its parts, a comma between two: `after 1`, what goes as `-NAME-VERSION:SLOT`, and
//! what comes as a package behind `+`.

use crate::reading::package;
use dep_atom::PackageId;
use pkg_state::Pkg;
use plan_lives::{Group, Plan, Removal};
use pms_names::SlotName;
use std::alloc::Global;

fn place(number: &str) -> Option<usize> {
    number.parse::<usize>().ok()?.checked_sub(1)
}

fn after(alloc: Global, text: &str) -> Option<Vec<usize>> {
    let mut places = Vec::new(alloc);
    for part in text.split(',') {
        if let Some(number) = part.strip_prefix("after ") {
            places.push(place(number)?).ok()?;
        }
    }
    Some(places)
}

fn removal(alloc: Global, text: &str) -> Option<Removal> {
    let (pf, slot) = text.split_once(':').unwrap_or((text, "0"));
    let slot = SlotName::parse(alloc, slot).ok()?;
    let id = PackageId::parse(alloc, "c", pf).ok()?;
    Some(Removal { id, slot })
}

fn removals(alloc: Global, text: &str) -> Option<Vec<Removal>> {
    let mut all = Vec::new(alloc);
    for part in text.split(',') {
        if let Some(text) = part.strip_prefix("-") {
            all.push(removal(alloc, text)?).ok()?;
        }
    }
    Some(all)
}

fn additions(alloc: Global, text: &str) -> Option<Vec<Pkg>> {
    let mut all = Vec::new(alloc);
    for part in text.split(',') {
        if let Some(text) = part.strip_prefix("+") {
            all.push(package(alloc, text)?).ok()?;
        }
    }
    Some(all)
}

fn group(alloc: Global, text: &str) -> Option<Group> {
    let after = after(alloc, text)?;
    let removals = removals(alloc, text)?;
    let additions = additions(alloc, text)?;
    Some(Group {
        after,
        removals,
        additions,
    })
}

/// The plan of these groups, a tab between two.
pub(crate) fn plan(alloc: Global, text: &str) -> Option<Plan> {
    let mut groups = Vec::new(alloc);
    for part in text.split('\t') {
        if !part.is_empty() {
            groups.push(group(alloc, part)?).ok()?;
        }
    }
    Plan::new(groups)
}
