ghost use Rattle.std.specs.Prelude.{◌≡◌, ◌↔◌, ◌<◌, IfOk, IsTrue, length};
ghost use Rattle.basics.specs.Members.{Has};
ghost use Rattle.plan_law.specs.Lives.{stretch_of};
ghost use Rattle.plan_lives.specs.Index.{IsIndex, all_lives, plan_of, start_of};
ghost use Rattle.plan_lives.specs.IsReach.{IsReach};
ghost use Rattle.plan_lives.specs.Lives.{life_of, lives_of};
ghost use Rattle.plan_lives.specs.Meeting.{AreMeeting, AreNumbers, HasOfGroup, IsOfGroup, MayMeet};
ghost use Rattle.plan_lives.specs.Meeting.{those_matched};
ghost use Rattle.plan_lives.specs.Stretches.{IsStretchWithin, stretch_value};

use crate::chains::gathered;
use crate::index::Index;
use crate::life::{Life, Moment};
use crate::reach::Reach;
use crate::stretch::{Stretch, is_commit_of};
use std::alloc::{AllocError, Global};

/// Whether the package comes or goes with the group.
fn is_of_group(x: &Life<'_>, g: usize) -> bool
    ensures { IsTrue result ↔ IsOfGroup g (life_of x.now) }
{
    is_commit_of(x.birth, g) || is_commit_of(x.death, g)
}

/// Whether one of these comes or goes with the group.
fn has_of_group(lives: &[Life<'_>], g: usize) -> bool
    ensures { IsTrue result ↔ HasOfGroup (lives_of lives.now) g }
{
    for x in lives {
        if is_of_group(x, g) {
            return true;
        }
    }
    false
}

/// Whether the group may come inside the stretch, and one of these comes or goes with it.
fn may_meet(reach: &Reach<'_>, stretch: &Stretch, lives: &[Life<'_>], g: usize) -> bool
    requires is { IsReach reach.now }
    requires within { IsStretchWithin (length reach.now.groups.now) (stretch_value stretch.now) }
    requires there { g < length reach.now.groups.now }
    ensures { IsTrue result ↔
        MayMeet reach.now.groups.now (stretch_value stretch.now) (lives_of lives.now) g }
{
    let come = Moment::Commit(g);
    !stretch.is_past(reach, come) && !stretch.is_ahead(reach, come) && has_of_group(lives, g)
}

/// The numbers of the groups that may come inside the stretch and with which one of these comes or
/// goes.
fn numbers_of(
    alloc: Global,
    reach: &Reach<'_>,
    stretch: &Stretch,
    lives: &[Life<'_>],
) -> Result<Vec<usize>, AllocError>
    requires is { IsReach reach.now }
    requires within { IsStretchWithin (length reach.now.groups.now) (stretch_value stretch.now) }
    ensures { IfOk result (λ numbers. AreNumbers
        (MayMeet reach.now.groups.now (stretch_value stretch.now) (lives_of lives.now)) 0
        reach.now.groups.now numbers.items) }
{
    let mut numbers = Vec::new(alloc);
    for (g, _) in reach.groups.iter().enumerate() {
        if may_meet(reach, stretch, lives, g) {
            numbers.push(g + 1)?;
        }
    }
    Ok(numbers)
}

/// The groups to name where what a package needs while it runs may be missing at some time: each is
/// looked for among the lives that the leaves of its RDEPEND match.
pub fn meeting(alloc: Global, index: &Index<'_>, x: &Life<'_>) -> Result<Vec<usize>, AllocError>
    requires is { IsIndex index.now }
    requires x { Has (all_lives index.now) (life_of x.now) }
    ensures { IfOk result (λ numbers.
        AreMeeting (plan_of index.now) (start_of index.now) (life_of x.now) numbers.items) }
{
    let pkg = x.pkg;
    let asker = &pkg.facts.enabled;
    let leaves = pkg.rdepend.leaves(alloc, asker)?;
    let matched = gathered(alloc, index, &leaves, asker)?;
    let stretch = Stretch::WhileThere {
        birth: x.birth,
        death: x.death,
    };
    numbers_of(alloc, index.reach, &stretch, &matched)
}
