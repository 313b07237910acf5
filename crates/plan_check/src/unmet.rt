ghost use Rattle.std.specs.Prelude.{◌≡◌, map};
ghost use Rattle.basics.specs.Members.{Has};
ghost use Rattle.plan_law.specs.Accepted.{AreLeft};
ghost use Rattle.plan_lives.specs.Home.{AreThereAt};
ghost use Rattle.plan_lives.specs.Index.{IsIndex, all_lives, plan_of, start_of};
ghost use Rattle.plan_lives.specs.Lives.{life_of};
ghost use Rattle.plan_lives.specs.Left.{left_of};
ghost use Rattle.plan_lives.specs.Stretches.{IsWithin};
ghost use Rattle.plan_check.specs.Home.{among, met_rule};
ghost use Rattle.plan_check.specs.PackageRules.{if_left, satisfied_rule};
ghost use Rattle.plan_rules.specs.Refusals.{Says};
ghost use Rattle.basics.specs.Limits.{most_groups};

use pkg_state::{Class, copy_leaf};
use plan_lives::{Index, Life, Moment, Packages, there_at};
use plan_rules::{PlanRefused, number_of};
use std::alloc::Global;

/// Whether what a package needs while it runs is among these.
fn judge_among(packages: &Packages<'_>, x: &Life<'_>) -> Result<(), PlanRefused>
    requires { IsWithin most_groups (life_of x.now).birth }
    ensures { Says (met_rule (life_of x.now) (map (λ p. p.now) packages.now.all.items)) result }
{
    let pkg = x.pkg;
    if !pkg.is_met(Class::Rdepend, packages) {
        let leaf = copy_leaf(pkg.lacking_leaf(Class::Rdepend, packages))?;
        let package = pkg.facts.id.try_clone()?;
        return Err(PlanRefused::Unsatisfied {
            group: number_of(x.birth),
            package,
            class: Class::Rdepend,
            leaf,
        });
    }
    Ok(())
}

/// .. among those that are there when it comes, if just what comes before has happened.
fn judge_home(alloc: Global, index: &Index<'_>, x: &Life<'_>) -> Result<(), PlanRefused>
    requires is { IsIndex index.now }
    requires x { Has (all_lives index.now) (life_of x.now) }
    ensures { Says (among
        (AreThereAt (plan_of index.now) (start_of index.now) (life_of x.now).birth)
        (met_rule (life_of x.now))) result }
{
    let home = Packages::new(alloc, there_at(alloc, index, x.birth)?)?;
    judge_among(&home, x)
}

/// .. among those that are there at the end, if it is one of them.
fn judge_left(index: &Index<'_>, left: &Packages<'_>, x: &Life<'_>) -> Result<(), PlanRefused>
    requires is { IsIndex index.now }
    requires left { map (λ p. p.now) left.now.all.items ≡
        left_of (plan_of index.now) (start_of index.now) }
    requires x { Has (all_lives index.now) (life_of x.now) }
    ensures { Says (if_left (life_of x.now).death
        (among (AreLeft (plan_of index.now) (start_of index.now)) (met_rule (life_of x.now))))
        result }
{
    match x.death {
        Moment::Opening => Ok(()),
        Moment::Commit(_) => Ok(()),
        Moment::Never => judge_among(left, x),
    }
}

/// Whether what a package needs while it runs is there when it comes and, if it stays, at the end.
pub(crate) fn judge_satisfied(
    alloc: Global,
    index: &Index<'_>,
    left: &Packages<'_>,
    x: &Life<'_>,
) -> Result<(), PlanRefused>
    requires is { IsIndex index.now }
    requires left { map (λ p. p.now) left.now.all.items ≡
        left_of (plan_of index.now) (start_of index.now) }
    requires x { Has (all_lives index.now) (life_of x.now) }
    ensures { Says (satisfied_rule (plan_of index.now) (start_of index.now) (life_of x.now))
        result }
{
    judge_home(alloc, index, x)?;
    judge_left(index, left, x)
}
