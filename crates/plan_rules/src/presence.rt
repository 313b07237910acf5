ghost use Rattle.std.specs.Prelude.{◌≡◌, ◌↔◌, ◌<◌, IfOk, IsTrue, length, map};
ghost use Rattle.pms_names.specs.Flags.{byte_order};
ghost use Rattle.plan_law.specs.Plans.{removed_line};
ghost use Rattle.plan_lives.specs.Index.{IsIndex, plan_of, start_of};
ghost use Rattle.plan_lives.specs.Lives.{life_of};
ghost use Rattle.plan_rules.specs.Order.{AreInOrder, each_by};
ghost use Rattle.plan_rules.specs.Refusals.{Says};
ghost use Rattle.plan_rules.specs.Rules.{IsPresent, IsTheOne, present_of, present_rule};
ghost use Rattle.plan_rules.specs.Verdicts.{each};

use crate::refusal::PlanRefused;
use pkg_state::LineName;
use plan_lives::{Index, Life, Removal, stands_before};
use std::alloc::{AllocError, Global};
use std::cmp::Ordering;

/// Whether the life is of the package that goes, just before the group.
fn is_the_one(x: &Life<'_>, g: usize, removal: &Removal) -> bool
    ensures { IsTrue result ↔ IsTheOne g removal.now (life_of x.now) }
{
    let pkg = x.pkg;
    stands_before(x, g) && pkg.facts.id.is_same(&removal.id)
}

/// Whether the package that goes stands on its line just before the group.
fn is_present(
    alloc: Global,
    index: &Index<'_>,
    g: usize,
    removal: &Removal,
) -> Result<bool, AllocError>
    requires { IsIndex index.now }
    ensures { IfOk result (λ there. IsTrue there ↔
        IsPresent (plan_of index.now) (start_of index.now) g removal.now) }
{
    let line = LineName::new(alloc, &removal.id.name, &removal.slot)?;
    for x in index.by_line.get(line.text()) {
        if is_the_one(x, g, removal) {
            return Ok(true);
        }
    }
    Ok(false)
}

fn judge_removal(
    alloc: Global,
    index: &Index<'_>,
    g: usize,
    removal: &Removal,
) -> Result<(), PlanRefused>
    requires is { IsIndex index.now }
    requires there { g < length (plan_of index.now) }
    ensures { Says (present_of (plan_of index.now) (start_of index.now) g removal.now) result }
{
    if is_present(alloc, index, g, removal)? {
        return Ok(());
    }
    let package = removal.id.try_clone()?;
    Err(PlanRefused::Absent {
        group: g + 1,
        package,
    })
}

/// What goes, with the line on which it stands.
#[derive(Drop)]
struct Going<'a> {
    line: LineName,
    removal: &'a Removal,
    ghost own: { line ≡ removed_line removal.now },
}

fn with_lines<'a>(alloc: Global, removals: &'a [Removal]) -> Result<Vec<Going<'a>>, AllocError>
    ensures { IfOk result (λ v. map (λ one. one.removal.now) v.items ≡ removals.now) }
{
    let mut all = Vec::with_capacity(alloc, removals.len())?;
    for removal in removals {
        let line = LineName::new(alloc, &removal.id.name, &removal.slot)?;
        all.push(Going { line, removal })?;
    }
    Ok(all)
}

fn compare(a: &Going<'_>, b: &Going<'_>) -> Ordering
    ensures { result ≡
        byte_order (removed_line a.now.removal.now) (removed_line b.now.removal.now) }
{
    a.line.cmp(&b.line)
}

/// What goes, in the order of lines.
fn in_line_order<'a>(alloc: Global, removals: &'a [Removal]) -> Result<Vec<Going<'a>>, AllocError>
    ensures { IfOk result (λ v. AreInOrder removed_line removals.now
        (map (λ one. one.removal.now) v.items)) }
{
    let mut all = with_lines(alloc, removals)?;
    all.sort_by(|a, b| compare(a, b))?;
    Ok(all)
}

fn judge_in_order(
    alloc: Global,
    index: &Index<'_>,
    g: usize,
    all: &[Going<'_>],
) -> Result<(), PlanRefused>
    requires is { IsIndex index.now }
    requires there { g < length (plan_of index.now) }
    ensures { Says (each (map (λ one. one.removal.now) all.now)
        (present_of (plan_of index.now) (start_of index.now) g)) result }
{
    for one in all {
        judge_removal(alloc, index, g, one.removal)?;
    }
    Ok(())
}

fn judge_removals(
    alloc: Global,
    index: &Index<'_>,
    g: usize,
    removals: &[Removal],
) -> Result<(), PlanRefused>
    requires is { IsIndex index.now }
    requires there { g < length (plan_of index.now) }
    ensures { Says (each_by removed_line removals.now
        (present_of (plan_of index.now) (start_of index.now) g)) result }
{
    let all = in_line_order(alloc, removals)?;
    judge_in_order(alloc, index, g, &all)
}

/// Whether each package that goes stands on its line just before its group.
pub fn judge_present(alloc: Global, index: &Index<'_>) -> Result<(), PlanRefused>
    requires { IsIndex index.now }
    ensures { Says (present_rule (plan_of index.now) (start_of index.now)) result }
{
    for (g, group) in index.reach.groups.iter().enumerate() {
        judge_removals(alloc, index, g, &group.removals)?;
    }
    Ok(())
}
