ghost use Rattle.std.specs.Prelude.{◌≡◌, ◌↔◌, ◌<◌, IfOk, IsTrue, length, map};
ghost use Rattle.std.specs.Option.{option_map};
ghost use Rattle.basics.specs.Members.{Has};
ghost use Rattle.dep_atom.specs.Values.{atom_value};
ghost use Rattle.plan_law.specs.Accepted.{IsFirmThrough};
ghost use Rattle.plan_lives.specs.Index.{IsIndex, all_lives, plan_of, start_of};
ghost use Rattle.plan_lives.specs.Lives.{life_of};
ghost use Rattle.plan_lives.specs.Left.{left_of};
ghost use Rattle.plan_lives.specs.Stretches.{IsStretchWithin, stretch_value};
ghost use Rattle.plan_check.specs.PackageRules.{IsMissing, built_of, built_rule, lasting_rule};
ghost use Rattle.plan_rules.specs.Refusals.{Says};

use crate::unmet::judge_satisfied;
use dep_atom::Atom;
use pkg_state::{Class, Pkg, copy_leaf};
use plan_lives::{Index, Life, Moment, Packages, Stretch, are_firm, leaf_of_all, meeting};
use plan_rules::PlanRefused;
use std::alloc::{AllocError, Global};

/// Whether what the package wants in the class is there all through the stretch.
fn is_firm_through(
    alloc: Global,
    index: &Index<'_>,
    stretch: Stretch,
    class: Class,
    pkg: &Pkg,
) -> Result<bool, AllocError>
    requires is { IsIndex index.now }
    requires within { IsStretchWithin (length (plan_of index.now)) (stretch_value stretch) }
    ensures { IfOk result (λ firm. IsTrue firm ↔
        IsFirmThrough (plan_of index.now) (start_of index.now) (stretch_value stretch) class
        pkg.now) }
{
    are_firm(alloc, pkg.tree(class), index, &stretch, &pkg.facts.enabled)
}

/// The leaf to name of what it may miss.
fn missing(
    alloc: Global,
    index: &Index<'_>,
    stretch: Stretch,
    class: Class,
    pkg: &Pkg,
) -> Result<Option<Atom>, AllocError>
    requires is { IsIndex index.now }
    requires within { IsStretchWithin (length (plan_of index.now)) (stretch_value stretch) }
    ensures { IfOk result (λ leaf.
        IsMissing (plan_of index.now) (start_of index.now) (stretch_value stretch) class pkg.now
        (option_map atom_value leaf)) }
{
    let found = leaf_of_all(alloc, pkg.tree(class), index, &stretch, &pkg.facts.enabled)?;
    copy_leaf(found)
}

/// Whether what a package needs while it runs is there all through its life, where these packages
/// are left.
pub(crate) fn judge_lasting(
    alloc: Global,
    index: &Index<'_>,
    left: &Packages<'_>,
    x: &Life<'_>,
) -> Result<(), PlanRefused>
    requires is { IsIndex index.now }
    requires left { map (λ p. p.now) left.now.all.items ≡
        left_of (plan_of index.now) (start_of index.now) }
    requires x { Has (all_lives index.now) (life_of x.now) }
    ensures { Says (lasting_rule (plan_of index.now) (start_of index.now) (life_of x.now)) result }
{
    let stretch = Stretch::WhileThere {
        birth: x.birth,
        death: x.death,
    };
    if is_firm_through(alloc, index, stretch, Class::Rdepend, x.pkg)? {
        return Ok(());
    }
    judge_satisfied(alloc, index, left, x)?;
    let pkg = x.pkg;
    let leaf = missing(alloc, index, stretch, Class::Rdepend, pkg)?;
    let meeting = meeting(alloc, index, x)?;
    let package = pkg.facts.id.try_clone()?;
    Err(PlanRefused::Unsafe {
        package,
        class: Class::Rdepend,
        leaf,
        meeting,
    })
}

fn judge_class(
    alloc: Global,
    index: &Index<'_>,
    g: usize,
    class: Class,
    pkg: &Pkg,
) -> Result<(), PlanRefused>
    requires is { IsIndex index.now }
    requires there { g < length (plan_of index.now) }
    ensures { Says (built_of (plan_of index.now) (start_of index.now) pkg.now class g) result }
{
    let stretch = Stretch::Until(g);
    if is_firm_through(alloc, index, stretch, class, pkg)? {
        return Ok(());
    }
    let leaf = missing(alloc, index, stretch, class, pkg)?;
    let package = pkg.facts.id.try_clone()?;
    Err(PlanRefused::Build {
        group: g + 1,
        package,
        class,
        leaf,
    })
}

/// Whether what an addition wants for its build is there whenever it may come.
pub(crate) fn judge_built(alloc: Global, index: &Index<'_>, x: &Life<'_>) -> Result<(), PlanRefused>
    requires is { IsIndex index.now }
    requires x { Has (all_lives index.now) (life_of x.now) }
    ensures { Says (built_rule (plan_of index.now) (start_of index.now) (life_of x.now)) result }
{
    match x.birth {
        Moment::Opening => Ok(()),
        Moment::Commit(g) => {
            judge_class(alloc, index, g, Class::Depend, x.pkg)?;
            judge_class(alloc, index, g, Class::Bdepend, x.pkg)?;
            judge_class(alloc, index, g, Class::Idepend, x.pkg)
        }
        Moment::Never => Ok(()),
    }
}
