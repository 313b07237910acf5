ghost use Rattle.std.specs.Prelude.{◌≡◌, ◌++◌, IfOk, OnOk, bytes_eq, filter, map};
ghost use Rattle.std.specs.List.{list_any};
ghost use Rattle.plan_law.specs.Plans.{changed, removed_line};
ghost use Rattle.plan_repair.specs.Repair.{behind, is_elsewhere};

use pkg_state::{LineName, Pkg, copy_package};
use plan_lives::{Group, Plan, Removal};
use std::alloc::{AllocError, Global};

/// The lines from which something goes.
fn cleared_lines(alloc: Global, removals: &[Removal]) -> Result<Vec<LineName>, AllocError>
    ensures { IfOk result (λ lines. lines.items ≡ map removed_line removals.now) }
{
    let mut lines = Vec::with_capacity(alloc, removals.len())?;
    for removal in removals {
        lines.push(LineName::new(alloc, &removal.id.name, &removal.slot)?)?;
    }
    Ok(lines)
}

fn is_among(line: &LineName, lines: &[LineName]) -> bool
    ensures { result ≡ list_any (λ other. bytes_eq other line.now) lines.now }
{
    for other in lines {
        if other == line {
            return true;
        }
    }
    false
}

/// Copies of packages.
fn copies(alloc: Global, packages: &[Pkg]) -> Result<Vec<Pkg>, AllocError>
    ensures { IfOk result (λ copies. copies.items ≡ packages.now) }
{
    let mut copies = Vec::with_capacity(alloc, packages.len())?;
    for pkg in packages {
        copies.push(copy_package(pkg)?)?;
    }
    Ok(copies)
}

/// Whether the package is on none of the lines.
fn is_elsewhere(alloc: Global, pkg: &Pkg, lines: &[LineName]) -> Result<bool, AllocError>
    ensures { IfOk result (λ elsewhere. elsewhere ≡ is_elsewhere lines.now pkg.now) }
{
    let line = pkg.line(alloc)?;
    Ok(!is_among(&line, lines))
}

/// Adds copies of the packages that are on none of the lines.
fn add_others(
    alloc: Global,
    packages: &[Pkg],
    lines: &[LineName],
    all: &mut Vec<Pkg>,
) -> Result<(), AllocError>
    ensures { OnOk result
        (all.new.items ≡ all.old.items ++ filter (is_elsewhere lines.now) packages.now) }
{
    for pkg in packages {
        if is_elsewhere(alloc, pkg, lines)? {
            all.push(copy_package(pkg)?)?;
        }
    }
    Ok(())
}

fn behind_group(alloc: Global, start: &[Pkg], group: &Group) -> Result<Vec<Pkg>, AllocError>
    ensures { IfOk result (λ all. all.items ≡ changed group.now start.now) }
{
    let lines = cleared_lines(alloc, &group.removals)?;
    let mut all = copies(alloc, &group.additions)?;
    add_others(alloc, start, &lines, &mut all)?;
    Ok(all)
}

/// Copies of the packages behind the plan: of those that come, and then of those that stay.
pub(crate) fn packages_behind(
    alloc: Global,
    start: &[Pkg],
    plan: &Plan,
) -> Result<Vec<Pkg>, AllocError>
    ensures { IfOk result (λ all. all.items ≡ behind plan.now start.now) }
{
    let groups = plan.groups();
    if groups.is_empty() {
        return copies(alloc, start);
    }
    behind_group(alloc, start, &groups[0])
}
