ghost use Rattle.std.specs.Prelude.{◌≡◌, ◌<◌, IfOk, None, Some, length, map};
ghost use Rattle.std.specs.Option.{option_map};
ghost use Rattle.basics.specs.Members.{Has};
ghost use Rattle.dep_atom.specs.Values.{atom_value};
ghost use Rattle.plan_lives.specs.Binding.{IsRightBind};
ghost use Rattle.plan_lives.specs.Index.{IsIndex, all_lives, plan_of, start_of};
ghost use Rattle.plan_lives.specs.Lives.{life_of};
ghost use Rattle.plan_check.specs.Asks.{asked_value, what_asked};
ghost use Rattle.plan_check.specs.Binding.{binds_rule};
ghost use Rattle.plan_check.specs.PackageRules.{binding_rule, coming_rule};
ghost use Rattle.plan_rules.specs.Refusals.Refusal.{Binding};
ghost use Rattle.plan_rules.specs.Refusals.{Says};
ghost use Rattle.plan_rules.specs.Verdicts.{demand, fail};

use crate::asked::Asked;
use crate::required::judge_required;
use dep_atom::{Atom, Bind};
use pkg_state::{Pkg, copy_leaf};
use plan_lives::{Index, Life, Moment, is_right};
use plan_rules::PlanRefused;
use std::alloc::{AllocError, Global};

fn copy_bind(bind: Option<&Bind>) -> Result<Option<Bind>, AllocError>
    ensures { IfOk result (λ copy. copy ≡ option_map (λ b. b.now) bind.entry) }
{
    match bind {
        Some(bind) => {
            let slot = bind.slot.try_clone()?;
            let subslot = bind.subslot.try_clone()?;
            Ok(Some(Bind { slot, subslot }))
        }
        None => Ok(None),
    }
}

/// Tells the place where the binds aren't right.
fn refuse(pkg: &Pkg, leaf: Option<&Atom>, found: Option<&Bind>) -> Result<(), PlanRefused>
    ensures { Says (fail (Binding pkg.now.facts.id (option_map (λ a. atom_value a.now) leaf.entry)
        (option_map (λ b. b.now) found.entry))) result }
{
    let leaf = copy_leaf(leaf)?;
    let found = copy_bind(found)?;
    let package = pkg.facts.id.try_clone()?;
    Err(PlanRefused::Binding {
        package,
        leaf,
        found,
    })
}

fn judge_bind(
    alloc: Global,
    index: &Index<'_>,
    g: usize,
    pkg: &Pkg,
    atom: &Atom,
    bind: &Bind,
) -> Result<(), PlanRefused>
    requires is { IsIndex index.now }
    requires there { g < length (plan_of index.now) }
    ensures { Says (demand
        (IsRightBind (plan_of index.now) (start_of index.now) g pkg.now.facts.enabled
        (atom_value atom.now) bind.now)
        (Binding pkg.now.facts.id (Some (atom_value atom.now)) (Some bind.now))) result }
{
    if !is_right(alloc, index, g, &pkg.facts.enabled, atom, bind)? {
        return refuse(pkg, Some(atom), Some(bind));
    }
    Ok(())
}

/// Whether each of the leaves has its bind, which is right, and no bind is left over.
fn judge_binds(
    alloc: Global,
    index: &Index<'_>,
    g: usize,
    pkg: &Pkg,
    leaves: &[&Atom],
    binds: &[Bind],
) -> Result<(), PlanRefused>
    requires is { IsIndex index.now }
    requires there { g < length (plan_of index.now) }
    ensures { Says (binds_rule
        (IsRightBind (plan_of index.now) (start_of index.now) g pkg.now.facts.enabled)
        pkg.now.facts.id (map (λ atom. atom_value atom.now) leaves.now) binds.now) result }
{
    let mut rest = binds;
    for &atom in leaves {
        let Some((bind, behind)) = rest.split_first() else {
            return refuse(pkg, Some(atom), None);
        };
        judge_bind(alloc, index, g, pkg, atom, bind)?;
        rest = behind;
    }
    match rest.split_first() {
        Some((bind, _)) => refuse(pkg, None, Some(bind)),
        None => Ok(()),
    }
}

/// Whether the binds of what the group brings are right.
fn judge_asked(
    alloc: Global,
    index: &Index<'_>,
    g: usize,
    pkg: &Pkg,
    asked: Option<&Asked<'_>>,
) -> Result<(), PlanRefused>
    requires is { IsIndex index.now }
    requires there { g < length (plan_of index.now) }
    ensures { Says (binds_rule
        (IsRightBind (plan_of index.now) (start_of index.now) g pkg.now.facts.enabled)
        pkg.now.facts.id (what_asked (option_map (λ a. a.now) asked.entry)).leaves
        (what_asked (option_map (λ a. a.now) asked.entry)).binds) result }
{
    match asked {
        Some(asked) => judge_binds(alloc, index, g, pkg, &asked.leaves, asked.binds),
        None => Ok(()),
    }
}

fn judge_bound(
    alloc: Global,
    index: &Index<'_>,
    asked: Option<&Asked<'_>>,
    x: &Life<'_>,
) -> Result<(), PlanRefused>
    requires is { IsIndex index.now }
    requires x { Has (all_lives index.now) (life_of x.now) }
    ensures { Says (binding_rule (plan_of index.now) (start_of index.now) (life_of x.now)
        (what_asked (option_map (λ a. a.now) asked.entry))) result }
{
    match x.birth {
        Moment::Opening => Ok(()),
        Moment::Commit(g) => judge_asked(alloc, index, g, x.pkg, asked),
        Moment::Never => Ok(()),
    }
}

/// Whether what comes is as it may be: its flags go together, and its binds are right.
pub(crate) fn judge_what_comes(
    alloc: Global,
    index: &Index<'_>,
    asked: Option<&Asked<'_>>,
    x: &Life<'_>,
) -> Result<(), PlanRefused>
    requires is { IsIndex index.now }
    requires x { Has (all_lives index.now) (life_of x.now) }
    ensures { Says (coming_rule (plan_of index.now) (start_of index.now) (life_of x.now)
        (what_asked (option_map (λ a. a.now) asked.entry))) result }
{
    judge_required(x)?;
    judge_bound(alloc, index, asked, x)
}
