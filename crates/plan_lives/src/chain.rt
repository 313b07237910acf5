ghost use Rattle.std.specs.Prelude.{◌↔◌, IfOk, IsTrue, [], length};
ghost use Rattle.plan_law.specs.Lives.{IsPast};
ghost use Rattle.plan_lives.specs.Chains.{AreJoined, AreParted};
ghost use Rattle.plan_lives.specs.IsReach.{IsReach};
ghost use Rattle.plan_lives.specs.Lives.{lives_of};
ghost use Rattle.plan_lives.specs.Stretches.{AreWithin, IsStretchWithin, stretch_value};

use crate::life::{Life, Moment};
use crate::reach::Reach;
use crate::stretch::Stretch;
use std::alloc::{AllocError, Global};

/// Moves the lives that are there before the stretch begins to those that wait, and gives the
/// others.
fn take_past<'a>(
    alloc: Global,
    reach: &Reach<'_>,
    fits: &[Life<'a>],
    stretch: &Stretch,
    waiting: &mut Vec<Life<'a>>,
) -> Result<Vec<Life<'a>>, AllocError>
    requires is { IsReach reach.now }
    requires stretch { IsStretchWithin (length reach.now.groups.now) (stretch_value stretch.now) }
    requires within { AreWithin (length reach.now.groups.now) (lives_of fits.now) }
    ensures { IfOk result (λ others.
        AreParted (IsPast reach.now.groups.now (stretch_value stretch.now)) (lives_of fits.now) []
        (lives_of others.items) (lives_of waiting.old.items) (lives_of waiting.new.items)) }
{
    let mut others = Vec::new(alloc);
    for x in fits {
        if stretch.is_past(reach, x.birth) {
            waiting.push(*x)?;
        } else {
            others.push(*x)?;
        }
    }
    Ok(others)
}

/// Whether some of the lives lead all through the stretch, each there before the one before it goes.
/// Each life waits at most once, and those that are left are gone through for each that waits.
pub(crate) fn are_joined<'a>(
    alloc: Global,
    reach: &Reach<'_>,
    fits: &[Life<'a>],
    stretch: &Stretch,
) -> Result<bool, AllocError>
    requires is { IsReach reach.now }
    requires stretch { IsStretchWithin (length reach.now.groups.now) (stretch_value stretch.now) }
    requires within { AreWithin (length reach.now.groups.now) (lives_of fits.now) }
    ensures { IfOk result (λ joined. IsTrue joined ↔
        AreJoined reach.now.groups.now (lives_of fits.now) (stretch_value stretch.now)) }
{
    let mut waiting = Vec::new(alloc);
    let mut rest = take_past(alloc, reach, fits, stretch, &mut waiting)?;
    while let Some(x) = waiting.pop() {
        if stretch.is_ahead(reach, x.death) {
            return Ok(true);
        }
        let behind = Stretch::WhileThere {
            birth: x.death,
            death: Moment::Never,
        };
        rest = take_past(alloc, reach, &rest, &behind, &mut waiting)?;
    }
    Ok(false)
}
