ghost use Rattle.std.specs.Prelude.{◌≡◌, ◌↔◌, ◌<◌, IfOk, IsTrue, None, length, map};
ghost use Rattle.std.specs.List.{AllZip};
ghost use Rattle.std.specs.Option.{option_map};
ghost use Rattle.dep_atom.specs.Values.{atom_value};
ghost use Rattle.pms_names.specs.Flags.{has};
ghost use Rattle.plan_model.specs.Entering.{all_asking_leaves};
ghost use Rattle.plan_lives.specs.Binding.{ComesBehind, IsBeside, IsGreatest};
ghost use Rattle.plan_lives.specs.Gathered.{matching};
ghost use Rattle.plan_lives.specs.Index.{IsIndex, all_lives, plan_of, start_of};
ghost use Rattle.plan_lives.specs.IsReach.{IsReach};
ghost use Rattle.plan_lives.specs.Lives.{life_of, lives_of, moment_of};
ghost use Rattle.plan_lives.specs.Stretches.{AreWithin, IsWithin};
ghost use Rattle.merge_groups.specs.Written.{IsBindOf};

use crate::binding::bind_to;
use dep_atom::{Atom, Bind};
use pkg_state::Pkg;
use plan_lives::{Index, Life, Moment, Reach, Stretch, greater, is_commit_of};
use plan_model::asking_leaves;
use pms_names::Flags;
use std::alloc::{AllocError, Global};

/// Whether what happens at the moment happens behind the group in each run.
fn comes_behind(reach: &Reach<'_>, g: usize, moment: Moment) -> bool
    requires is { IsReach reach.now }
    requires there { g < length reach.now.groups.now }
    requires moment { IsWithin (length reach.now.groups.now) (moment_of moment) }
    ensures { IsTrue result ↔ ComesBehind reach.now.groups.now g (moment_of moment) }
{
    let commit = Stretch::WhileThere {
        birth: Moment::Commit(g),
        death: Moment::Commit(g),
    };
    commit.is_ahead(reach, moment) && !is_commit_of(moment, g)
}

/// Whether the package stands beside what the group brings.
fn is_beside(reach: &Reach<'_>, g: usize, y: &Life<'_>) -> bool
    requires is { IsReach reach.now }
    requires there { g < length reach.now.groups.now }
    requires birth { IsWithin (length reach.now.groups.now) (life_of y.now).birth }
    requires death { IsWithin (length reach.now.groups.now) (life_of y.now).death }
    ensures { IsTrue result ↔ IsBeside reach.now.groups.now g (life_of y.now) }
{
    let commit = Stretch::WhileThere {
        birth: Moment::Commit(g),
        death: Moment::Commit(g),
    };
    !commit.is_past(reach, y.death) && !comes_behind(reach, g, y.birth)
}

/// The greatest package that stands beside what the group brings.
fn greatest<'a>(reach: &Reach<'_>, g: usize, fits: &[Life<'a>]) -> Option<&'a Pkg>
    requires is { IsReach reach.now }
    requires there { g < length reach.now.groups.now }
    requires within { AreWithin (length reach.now.groups.now) (lives_of fits.now) }
    ensures { IsGreatest reach.now.groups.now g None (lives_of fits.now)
        (option_map (λ p. p.now) result) }
{
    let mut best = None;
    for y in fits {
        if is_beside(reach, g, y) {
            best = Some(greater(best, y.pkg));
        }
    }
    best
}

/// The lives whose packages the atom matches.
fn matching<'a>(
    alloc: Global,
    index: &Index<'a>,
    atom: &Atom,
    asker: &Flags,
) -> Result<Vec<Life<'a>>, AllocError>
    requires { IsIndex index.now }
    ensures { IfOk result (λ fits. lives_of fits.items ≡
        matching (atom_value atom.now) asker.now (all_lives index.now)) }
{
    let mut fits = Vec::new(alloc);
    for x in index.by_name.get(atom.name.package.text()) {
        let pkg = x.pkg;
        if atom.matches(&pkg.facts, asker) {
            fits.push(*x)?;
        }
    }
    Ok(fits)
}

fn bind_of(
    alloc: Global,
    index: &Index<'_>,
    g: usize,
    asker: &Flags,
    atom: &Atom,
) -> Result<Bind, AllocError>
    requires is { IsIndex index.now }
    requires there { g < length (plan_of index.now) }
    ensures { IfOk result (IsBindOf (plan_of index.now) (start_of index.now) g asker.now
        (atom_value atom.now)) }
{
    let fits = matching(alloc, index, atom, asker)?;
    let found = greatest(index.reach, g, &fits);
    bind_to(alloc, found, atom)
}

/// A bind for each of the leaves of what the group brings.
fn each_beside(
    alloc: Global,
    index: &Index<'_>,
    g: usize,
    asker: &Flags,
    leaves: &[&Atom],
) -> Result<Vec<Bind>, AllocError>
    requires is { IsIndex index.now }
    requires there { g < length (plan_of index.now) }
    ensures { IfOk result (λ binds.
        AllZip (IsBindOf (plan_of index.now) (start_of index.now) g asker.now)
        (map (λ leaf. atom_value leaf.now) leaves.now) binds.items) }
{
    let mut binds = Vec::with_capacity(alloc, leaves.len())?;
    for leaf in leaves {
        binds.push(bind_of(alloc, index, g, asker, leaf)?)?;
    }
    Ok(binds)
}

/// A bind for each leaf that asks, of a package that the group brings.
pub(crate) fn binds_beside(
    alloc: Global,
    index: &Index<'_>,
    g: usize,
    pkg: &Pkg,
) -> Result<Vec<Bind>, AllocError>
    requires is { IsIndex index.now }
    requires there { g < length (plan_of index.now) }
    ensures { IfOk result (λ binds. AllZip
        (IsBindOf (plan_of index.now) (start_of index.now) g pkg.now.facts.enabled)
        (all_asking_leaves (has pkg.now.facts.enabled) pkg.now.rdepend.groups) binds.items) }
{
    let leaves = asking_leaves(alloc, pkg)?;
    let binds = each_beside(alloc, index, g, &pkg.facts.enabled, &leaves)?;
    Ok(binds)
}
