ghost use Rattle.std.specs.Prelude.{◌≡◌, ◌⊎◌, ◌+◌, ◌↔◌, ℕ, IfOk, IsTrue};
ghost use Rattle.std.specs.List.Sorted.{IsSortedBy};
ghost use Rattle.basics.specs.Members.{Has};
ghost use Rattle.plan_law.specs.Lives as law;
ghost use Rattle.plan_law.specs.Plans.{group_at};
ghost use Rattle.plan_lives.specs.Index.{IsIndex, all_lives, plan_of, start_of};
ghost use Rattle.plan_lives.specs.Lives.{life_of, lives_of};
ghost use Rattle.plan_rules.specs.Order.{AreInOrder, is_before, life_key};
ghost use Rattle.plan_rules.specs.Places.{IsAt, IsOfNoOther};
ghost use Rattle.plan_rules.specs.Refusals.{Says};
ghost use Rattle.plan_rules.specs.Rules.{AreDouble, AreTwins, Crowds, Hinders, room_of, room_rule};

use crate::hindrance::{are_double, hinders, is_in_the_way, on_one_line};
use crate::meeting::number_of;
use crate::refusal::{PlanRefused, occupied};
use pkg_state::Pkg;
use plan_lives::{Index, Life, Moment, is_commit_of};
use std::alloc::{AllocError, Global};

/// Whether what stands on the line of an addition goes with its group.
fn is_vacant(alloc: Global, index: &Index<'_>, g: usize, pkg: &Pkg) -> Result<bool, AllocError>
    requires is { IsIndex index.now }
    ensures { IfOk result (λ vacant. IsTrue vacant → (y : law.Life) → Has (all_lives index.now) y →
        ¬ Crowds (group_at (plan_of index.now) g) g pkg.now y) }
{
    let line = pkg.line(alloc)?;
    for y in index.by_line.get(line.text()) {
        if is_in_the_way(y, g) {
            return Ok(false);
        }
    }
    Ok(true)
}

/// Whether no other line has the package's version at one time with it.
fn is_single(alloc: Global, index: &Index<'_>, x: &Life<'_>) -> Result<bool, AllocError>
    requires is { IsIndex index.now }
    requires x { Has (all_lives index.now) (life_of x.now) }
    ensures { IfOk result (λ single. IsTrue single → (y : law.Life) → Has (all_lives index.now) y →
        ¬ AreDouble (plan_of index.now) (life_of x.now) y) }
{
    let pkg = x.pkg;
    for y in index.by_name.get(pkg.facts.id.name.package.text()) {
        if are_double(alloc, index, x, y)? {
            return Ok(false);
        }
    }
    Ok(true)
}

/// Whether both come to one line with the group.
fn come_together(alloc: Global, g: usize, x: &Life<'_>, y: &Life<'_>) -> Result<bool, AllocError>
    ensures { IfOk result (λ together.
        IsTrue together ↔ AreTwins g (life_of x.now) (life_of y.now)) }
{
    if !is_commit_of(y.birth, g) {
        return Ok(false);
    }
    on_one_line(alloc, y.pkg, x.pkg)
}

/// Whether what stands next isn't on one line with it.
fn is_apart_from_next(
    alloc: Global,
    all: &[Life<'_>],
    g: usize,
    i: usize,
    x: &Life<'_>,
) -> Result<bool, AllocError>
    requires { IsAt (lives_of all.now) i (life_of x.now) }
    ensures { IfOk result (λ apart. IsTrue apart → (y : law.Life) →
        IsAt (lives_of all.now) (i + 1) y → ¬ AreTwins g (life_of x.now) y) }
{
    if i + 1 >= all.len() {
        return Ok(true);
    }
    Ok(!come_together(alloc, g, x, &all[i + 1])?)
}

/// .. and what stands before it.
fn is_apart_from_last(
    alloc: Global,
    all: &[Life<'_>],
    g: usize,
    i: usize,
    x: &Life<'_>,
) -> Result<bool, AllocError>
    requires { IsAt (lives_of all.now) i (life_of x.now) }
    ensures { IfOk result (λ apart. IsTrue apart → (j : ℕ) (y : law.Life) → i ≡ j + 1 →
        IsAt (lives_of all.now) j y → ¬ AreTwins g (life_of x.now) y) }
{
    if i == 0 {
        return Ok(true);
    }
    Ok(!come_together(alloc, g, x, &all[i - 1])?)
}

/// Whether nothing else comes to its line with the group.
fn is_alone(
    alloc: Global,
    all: &[Life<'_>],
    g: usize,
    i: usize,
    x: &Life<'_>,
) -> Result<bool, AllocError>
    requires at_place { IsAt (lives_of all.now) i (life_of x.now) }
    requires comes { (life_of x.now).birth ≡ law.commit g }
    requires order { IsSortedBy (is_before life_key) (lives_of all.now) }
    ensures { IfOk result (λ alone. IsTrue alone →
        IsOfNoOther (lives_of all.now) i (AreTwins g (life_of x.now))) }
{
    if !is_apart_from_next(alloc, all, g, i, x)? {
        return Ok(false);
    }
    is_apart_from_last(alloc, all, g, i, x)
}

/// Whether nothing else has the line of what comes with the group.
fn line_is_free(
    alloc: Global,
    index: &Index<'_>,
    all: &[Life<'_>],
    g: usize,
    i: usize,
    x: &Life<'_>,
) -> Result<bool, AllocError>
    requires is { IsIndex index.now }
    requires order { AreInOrder life_key (all_lives index.now) (lives_of all.now) }
    requires at_place { IsAt (lives_of all.now) i (life_of x.now) }
    requires comes { (life_of x.now).birth ≡ law.commit g }
    ensures { IfOk result (λ free. IsTrue free → IsOfNoOther (lives_of all.now) i (λ y.
        Crowds (group_at (plan_of index.now) g) g (life_of x.now).package_is y
        ⊎ AreTwins g (life_of x.now) y)) }
{
    if !is_vacant(alloc, index, g, x.pkg)? {
        return Ok(false);
    }
    is_alone(alloc, all, g, i, x)
}

/// Whether nothing is in the package's way: a quick test, by its line, its name and its neighbours.
fn has_room(
    alloc: Global,
    index: &Index<'_>,
    all: &[Life<'_>],
    i: usize,
    x: &Life<'_>,
) -> Result<bool, AllocError>
    requires is { IsIndex index.now }
    requires order { AreInOrder life_key (all_lives index.now) (lives_of all.now) }
    requires at_place { IsAt (lives_of all.now) i (life_of x.now) }
    ensures { IfOk result (λ free. IsTrue free →
        IsOfNoOther (lives_of all.now) i (Hinders (plan_of index.now) (life_of x.now))) }
{
    if !is_single(alloc, index, x)? {
        return Ok(false);
    }
    match x.birth {
        Moment::Opening => Ok(true),
        Moment::Commit(g) => line_is_free(alloc, index, all, g, i, x),
        Moment::Never => Ok(true),
    }
}

/// Whether what stands at the place is another package, which is in the way.
fn is_in_way(
    alloc: Global,
    index: &Index<'_>,
    i: usize,
    x: &Life<'_>,
    j: usize,
    y: &Life<'_>,
) -> Result<bool, AllocError>
    requires is { IsIndex index.now }
    requires x { Has (all_lives index.now) (life_of x.now) }
    requires y { Has (all_lives index.now) (life_of y.now) }
    ensures { IfOk result (λ in_way. IsTrue in_way ↔
        ((¬ (j ≡ i)) × Hinders (plan_of index.now) (life_of x.now) (life_of y.now))) }
{
    if j == i {
        return Ok(false);
    }
    hinders(alloc, index, x, y)
}

/// Tells the first package that is in the way, by a look at all of them.
fn judge_all(
    alloc: Global,
    index: &Index<'_>,
    all: &[Life<'_>],
    i: usize,
    x: &Life<'_>,
) -> Result<(), PlanRefused>
    requires is { IsIndex index.now }
    requires order { AreInOrder life_key (all_lives index.now) (lives_of all.now) }
    requires x { Has (all_lives index.now) (life_of x.now) }
    ensures { Says (room_of (plan_of index.now) (lives_of all.now) i (life_of x.now)) result }
{
    for (j, y) in all.iter().enumerate() {
        if is_in_way(alloc, index, i, x, j, y)? {
            return Err(occupied(number_of(x.birth), x.pkg, y.pkg)?);
        }
    }
    Ok(())
}

fn judge_life(
    alloc: Global,
    index: &Index<'_>,
    all: &[Life<'_>],
    i: usize,
    x: &Life<'_>,
) -> Result<(), PlanRefused>
    requires is { IsIndex index.now }
    requires order { AreInOrder life_key (all_lives index.now) (lives_of all.now) }
    requires at_place { IsAt (lives_of all.now) i (life_of x.now) }
    ensures { Says (room_of (plan_of index.now) (lives_of all.now) i (life_of x.now)) result }
{
    if has_room(alloc, index, all, i, x)? {
        return Ok(());
    }
    judge_all(alloc, index, all, i, x)
}

/// Whether nothing is in the way of what comes, where `all` are the lives in their order.
pub fn judge_room(alloc: Global, index: &Index<'_>, all: &[Life<'_>]) -> Result<(), PlanRefused>
    requires is { IsIndex index.now }
    requires order { AreInOrder life_key (all_lives index.now) (lives_of all.now) }
    ensures { Says (room_rule (plan_of index.now) (lives_of all.now)) result }
{
    for (i, x) in all.iter().enumerate() {
        judge_life(alloc, index, all, i, x)?;
    }
    Ok(())
}
