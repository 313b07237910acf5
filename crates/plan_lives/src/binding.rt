ghost use Rattle.std.specs.Prelude.{◌≡◌, ◌↔◌, ◌<◌, IfOk, IsTrue, None, length, map};
ghost use Rattle.std.specs.Option.{option_map};
ghost use Rattle.dep_atom.specs.Values.{atom_value};
ghost use Rattle.plan_lives.specs.Binding.{ComesBehind, IsBeside, IsGreatest, IsRightBind};
ghost use Rattle.plan_lives.specs.Binding.{IsSlotOf, greater, rank};
ghost use Rattle.plan_lives.specs.Index.{IsIndex, plan_of, start_of};
ghost use Rattle.plan_lives.specs.IsReach.{IsReach};
ghost use Rattle.plan_lives.specs.Lives.{life_of, lives_of, moment_of};
ghost use Rattle.plan_lives.specs.Stretches.{AreWithin, IsWithin};

use crate::chains::add_matching;
use crate::index::Index;
use crate::life::{Life, Moment};
use crate::reach::Reach;
use crate::stretch::{is_commit_of, precedes};
use dep_atom::{Atom, Bind};
use pkg_state::Pkg;
use pms_names::Flags;
use std::alloc::{AllocError, Global};
use std::cmp::Ordering;

/// Whether what happens at the moment happens behind the group in each run.
fn comes_behind(reach: &Reach<'_>, g: usize, moment: Moment) -> bool
    requires is { IsReach reach.now }
    requires there { g < length reach.now.groups.now }
    requires moment { IsWithin (length reach.now.groups.now) (moment_of moment) }
    ensures { IsTrue result ↔ ComesBehind reach.now.groups.now g (moment_of moment) }
{
    precedes(reach, Moment::Commit(g), moment) && !is_commit_of(moment, g)
}

/// Whether the package stands beside what the group brings.
fn is_beside(reach: &Reach<'_>, g: usize, y: &Life<'_>) -> bool
    requires is { IsReach reach.now }
    requires there { g < length reach.now.groups.now }
    requires birth { IsWithin (length reach.now.groups.now) (life_of y.now).birth }
    requires death { IsWithin (length reach.now.groups.now) (life_of y.now).death }
    ensures { IsTrue result ↔ IsBeside reach.now.groups.now g (life_of y.now) }
{
    !precedes(reach, y.death, Moment::Commit(g)) && !comes_behind(reach, g, y.birth)
}

fn rank(one: &Pkg, other: &Pkg) -> Ordering
    ensures { result ≡ rank one.now other.now }
{
    let version = other.facts.id.version.compare(&one.facts.id.version);
    version.then(one.facts.slot.text().cmp(other.facts.slot.text()))
}

/// Of two packages of one name the one of the greater version, or else on the smaller slot; where
/// these are equal, the one that was found before.
pub fn greater<'a>(best: Option<&'a Pkg>, other: &'a Pkg) -> &'a Pkg
    ensures { result.now ≡ greater (option_map (λ p. p.now) best.entry) other.now }
{
    match best {
        Some(pkg) => {
            if rank(pkg, other).is_gt() {
                return other;
            }
            pkg
        }
        None => other,
    }
}

/// The greatest package that stands beside what the group brings.
fn greatest<'a>(reach: &Reach<'_>, g: usize, fits: &[Life<'a>]) -> Option<&'a Pkg>
    requires is { IsReach reach.now }
    requires there { g < length reach.now.groups.now }
    requires within { AreWithin (length reach.now.groups.now) (lives_of fits.now) }
    ensures { IsGreatest reach.now.groups.now g None (lives_of fits.now)
        (option_map (λ p. p.now) result) }
{
    let mut best = None;
    for y in fits {
        if is_beside(reach, g, y) {
            best = Some(greater(best, y.pkg));
        }
    }
    best
}

fn is_slot_of(found: Option<&Pkg>, bind: &Bind) -> bool
    ensures { IsTrue result ↔ IsSlotOf (option_map (λ p. p.now) found.entry) bind.now }
{
    match found {
        Some(pkg) => bind.slot == pkg.facts.slot && bind.subslot == pkg.facts.subslot,
        None => true,
    }
}

/// Whether the bind is right for a leaf of what the group brings, for an asker with these flags.
pub fn is_right(
    alloc: Global,
    index: &Index<'_>,
    g: usize,
    asker: &Flags,
    atom: &Atom,
    bind: &Bind,
) -> Result<bool, AllocError>
    requires is { IsIndex index.now }
    requires there { g < length (plan_of index.now) }
    ensures { IfOk result (λ right. IsTrue right ↔
        IsRightBind (plan_of index.now) (start_of index.now) g asker.now (atom_value atom.now)
        bind.now) }
{
    let mut fits = Vec::new(alloc);
    add_matching(index, atom, asker, &mut fits)?;
    let found = greatest(index.reach, g, &fits);
    Ok(is_slot_of(found, bind))
}
