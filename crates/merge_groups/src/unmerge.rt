ghost use Rattle.std.specs.Prelude.{◌≡◌, [], IfOk, map};
ghost use Rattle.std.specs.List.{AllByRecursion};
ghost use Rattle.pkg_state.specs.Consistent.{AreApart};
ghost use Rattle.plan_text.specs.Plans.{plan_value};
ghost use Rattle.plan_text.specs.Texts.{IsPlan};
ghost use Rattle.merge_groups.specs.Unmerge.{IsUnmerge};
ghost use Rattle.merge_groups.specs.Order.{AreInTextOrder};
ghost use Rattle.merge_groups.specs.declared.change.Change.TheVariants as changes;

use crate::change::Change;
use crate::named::packages_are_named;
use crate::order::{Lined, in_text_order};
use crate::single::{groups_of, removals_of};
use pkg_state::Pkg;
use plan_text::{Plan, one_plan};
use std::alloc::{AllocError, Global};

/// The packages that go, in the order of the text of a plan.
fn sorted<'a>(alloc: Global, packages: &[&'a Pkg]) -> Result<Vec<Lined<'a>>, AllocError>
    requires { AreApart (map (λ p. p.now) packages.now) }
    ensures { IfOk result (λ v. AreInTextOrder changes.Removal (map (λ p. p.now) packages.now)
        (map (λ l. l.pkg.now) v.items)) }
{
    one_plan();
    packages_are_named(packages);
    in_text_order(alloc, Change::Removal, packages)
}

/// The plan in which these packages go, as one group; it has none where none goes.
pub fn unmerge_plan(alloc: Global, packages: &[&Pkg]) -> Result<Plan, AllocError>
    requires { AreApart (map (λ p. p.now) packages.now) }
    ensures plan { IfOk result (λ plan.
        IsUnmerge (map (λ p. p.now) packages.now) (plan_value plan)) }
    ensures form { IfOk result (λ plan. IsPlan (plan_value plan)) }
{
    let going = sorted(alloc, packages)?;
    let removals = removals_of(alloc, &going)?;
    let groups = groups_of(alloc, removals, Vec::new(alloc))?;
    Ok(Plan { groups })
}
