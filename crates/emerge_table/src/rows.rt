use crate::flags::changed_flags;
use dep_atom::Facts;
use plan_lives::{Group, Removal};
use std::alloc::{AllocError, Global};
use std::cmp::Ordering;
use vdb_record::Installed;

/// One change: what it is, on which package, and how.
#[derive(Drop)]
pub(crate) struct Row {
    pub(crate) kind: &'static str,
    pub(crate) name: String,
    pub(crate) change: String,
}

/// The changes of the groups: what comes, each group in its order, and then what goes for good.
pub(crate) fn rows_of(
    alloc: Global,
    groups: &[Group],
    opening: &[Installed],
) -> Result<Vec<Row>, AllocError> {
    let mut rows = Vec::new(alloc);
    for group in groups {
        for addition in &group.additions {
            rows.push(row_of(alloc, &addition.facts, opening)?)?;
        }
    }
    for group in groups {
        for removal in &group.removals {
            if !comes_again(groups, removal) {
                rows.push(removal_row(alloc, removal)?)?;
            }
        }
    }
    Ok(rows)
}

/// Whether another version of what goes comes to its slot.
fn comes_again(groups: &[Group], removal: &Removal) -> bool {
    groups.iter().any(|group| {
        group.additions.iter().any(|it| it.facts.id.name == removal.id.name
            && it.facts.slot == removal.slot)
    })
}

/// What is installed in the place of a package that comes.
fn installed_at<'a>(facts: &Facts, opening: &'a [Installed]) -> Option<&'a Facts> {
    for one in opening {
        let there = &one.pkg.facts;
        if there.id.name == facts.id.name && there.slot == facts.slot {
            return Some(there);
        }
    }
    None
}

fn row_of(alloc: Global, facts: &Facts, opening: &[Installed]) -> Result<Row, AllocError> {
    let before = installed_at(facts, opening);
    let version = facts.id.version.text();
    let flags = changed_flags(alloc, facts, before)?;
    let (kind, change) = match before {
        None => ("new", format!(in alloc; "{version}{flags}")?),
        Some(there) => {
            let older = there.id.version.text();
            match there.id.version.compare(&facts.id.version) {
                Ordering::Less => ("upgrade", format!(in alloc; "{older} -> {version}{flags}")?),
                Ordering::Greater => (
                    "downgrade",
                    format!(in alloc; "{older} -> {version}{flags}")?,
                ),
                Ordering::Equal => ("rebuild", format!(in alloc; "{version}{flags}")?),
            }
        }
    };
    let name = name_of(
        alloc,
        facts.id.name.category.text(),
        facts.id.name.package.text(),
        facts.slot.text(),
    )?;
    Ok(Row { kind, name, change })
}

fn removal_row(alloc: Global, removal: &Removal) -> Result<Row, AllocError> {
    let category = removal.id.name.category.text();
    let package = removal.id.name.package.text();
    Ok(Row {
        kind: "removal",
        name: name_of(alloc, category, package, removal.slot.text())?,
        change: String::from_str(alloc, removal.id.version.text())?,
    })
}

/// The name of a package, with its slot where that isn't the one that most have.
fn name_of(alloc: Global, category: &str, package: &str, slot: &str) -> Result<String, AllocError> {
    if slot == "0" {
        format!(in alloc; "{category}/{package}")
    } else {
        format!(in alloc; "{category}/{package}:{slot}")
    }
}
