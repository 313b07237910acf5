ghost use Rattle.std.specs.Prelude.{◌≡◌, ◌⊎◌, ◌↔◌, ◌<◌, IfOk, IsTrue, length};
ghost use Rattle.basics.specs.Members.{Has};
ghost use Rattle.pkg_state.specs.Package.{line_of};
ghost use Rattle.plan_law.specs.Lives.{commit, opening};
ghost use Rattle.plan_law.specs.Plans.{group_at};
ghost use Rattle.plan_lives.specs.Index.{IsIndex, all_lives, plan_of, start_of};
ghost use Rattle.plan_lives.specs.Lives.{life_of, moment_of};
ghost use Rattle.plan_rules.specs.Rules.{AreDouble, AreOneVersion, AreTwins, Crowds, HasLine};
ghost use Rattle.plan_rules.specs.Rules.{Hinders, IsInTheWay};

use crate::meeting::{meets, stretch_of};
use pkg_state::Pkg;
use plan_lives::{Index, Life, Moment, is_commit_of, stands_before};
use std::alloc::{AllocError, Global};

/// Whether the package is there just before the group, and doesn't go with it.
pub(crate) fn is_in_the_way(y: &Life<'_>, g: usize) -> bool
    ensures { IsTrue result ↔ IsInTheWay g (life_of y.now) }
{
    stands_before(y, g) && !is_commit_of(y.death, g)
}

pub(crate) fn on_one_line(alloc: Global, a: &Pkg, b: &Pkg) -> Result<bool, AllocError>
    ensures { IfOk result (λ same. IsTrue same ↔ (line_of a.now.facts ≡ line_of b.now.facts)) }
{
    Ok(a.line(alloc)? == b.line(alloc)?)
}

fn are_one_version(
    alloc: Global,
    index: &Index<'_>,
    x: &Life<'_>,
    y: &Life<'_>,
) -> Result<bool, AllocError>
    requires is { IsIndex index.now }
    requires x { Has (all_lives index.now) (life_of x.now) }
    requires y { Has (all_lives index.now) (life_of y.now) }
    ensures { IfOk result (λ same. IsTrue same ↔
        AreOneVersion (plan_of index.now) (life_of x.now) (life_of y.now)) }
{
    let one = x.pkg;
    let other = y.pkg;
    if !one.facts.id.is_same(&other.facts.id) || !meets(index.reach, &stretch_of(x), y) {
        return Ok(false);
    }
    Ok(!on_one_line(alloc, one, other)?)
}

fn is_opening(moment: Moment) -> bool
    ensures { IsTrue result ↔ (moment_of moment ≡ opening) }
{
    match moment {
        Moment::Opening => true,
        Moment::Commit(_) => false,
        Moment::Never => false,
    }
}

/// Whether y is tried with x: what is there to begin with, with what is there then, too.
fn is_tried_with(x: &Life<'_>, y: &Life<'_>) -> bool
    ensures { IsTrue result ↔
        ((life_of x.now).birth ≡ opening → (life_of y.now).birth ≡ opening) }
{
    match x.birth {
        Moment::Opening => is_opening(y.birth),
        Moment::Commit(_) => true,
        Moment::Never => true,
    }
}

/// Whether both are one version on two lines, and y is tried with x.
pub(crate) fn are_double(
    alloc: Global,
    index: &Index<'_>,
    x: &Life<'_>,
    y: &Life<'_>,
) -> Result<bool, AllocError>
    requires is { IsIndex index.now }
    requires x { Has (all_lives index.now) (life_of x.now) }
    requires y { Has (all_lives index.now) (life_of y.now) }
    ensures { IfOk result (λ double. IsTrue double ↔
        AreDouble (plan_of index.now) (life_of x.now) (life_of y.now)) }
{
    if !is_tried_with(x, y) {
        return Ok(false);
    }
    are_one_version(alloc, index, x, y)
}

/// Whether the package is in the way of the group, or comes with it.
fn is_there_too(y: &Life<'_>, g: usize) -> bool
    ensures { IsTrue result ↔
        (IsInTheWay g (life_of y.now) ⊎ ((life_of y.now).birth ≡ commit g)) }
{
    is_in_the_way(y, g) || is_commit_of(y.birth, g)
}

/// Whether y has the line of what comes with the group.
fn takes_line(
    alloc: Global,
    index: &Index<'_>,
    g: usize,
    x: &Life<'_>,
    y: &Life<'_>,
) -> Result<bool, AllocError>
    requires is { IsIndex index.now }
    requires y { Has (all_lives index.now) (life_of y.now) }
    ensures { IfOk result (λ takes. IsTrue takes ↔
        (Crowds (group_at (plan_of index.now) g) g (life_of x.now).package_is (life_of y.now)
        ⊎ AreTwins g (life_of x.now) (life_of y.now))) }
{
    if !on_one_line(alloc, y.pkg, x.pkg)? {
        return Ok(false);
    }
    Ok(is_there_too(y, g))
}

fn has_line(
    alloc: Global,
    index: &Index<'_>,
    x: &Life<'_>,
    y: &Life<'_>,
) -> Result<bool, AllocError>
    requires is { IsIndex index.now }
    requires y { Has (all_lives index.now) (life_of y.now) }
    ensures { IfOk result (λ has. IsTrue has ↔
        HasLine (plan_of index.now) (life_of x.now) (life_of y.now) (life_of x.now).birth) }
{
    match x.birth {
        Moment::Opening => Ok(false),
        Moment::Commit(g) => takes_line(alloc, index, g, x, y),
        Moment::Never => Ok(false),
    }
}

/// Whether y is in the way of x.
pub(crate) fn hinders(
    alloc: Global,
    index: &Index<'_>,
    x: &Life<'_>,
    y: &Life<'_>,
) -> Result<bool, AllocError>
    requires is { IsIndex index.now }
    requires x { Has (all_lives index.now) (life_of x.now) }
    requires y { Has (all_lives index.now) (life_of y.now) }
    ensures { IfOk result (λ in_way. IsTrue in_way ↔
        Hinders (plan_of index.now) (life_of x.now) (life_of y.now)) }
{
    if has_line(alloc, index, x, y)? {
        return Ok(true);
    }
    are_double(alloc, index, x, y)
}
