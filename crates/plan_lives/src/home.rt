ghost use Rattle.std.specs.Prelude.{◌↔◌, IfOk, IsTrue, length, map};
ghost use Rattle.plan_lives.specs.Home.{AreThereAt, IsThereAt};
ghost use Rattle.plan_lives.specs.Index.{IsIndex, plan_of, start_of};
ghost use Rattle.plan_lives.specs.IsReach.{IsReach};
ghost use Rattle.plan_lives.specs.Lives.{life_of, moment_of};
ghost use Rattle.plan_lives.specs.Stretches.{IsWithin};

use crate::index::Index;
use crate::life::{Life, Moment};
use crate::reach::Reach;
use crate::stretch::precedes;
use pkg_state::Pkg;
use std::alloc::{AllocError, Global};

/// Whether the package is there at the moment, where just what comes before has happened.
fn is_there_at(reach: &Reach<'_>, moment: Moment, x: &Life<'_>) -> bool
    requires is { IsReach reach.now }
    requires moment { IsWithin (length reach.now.groups.now) (moment_of moment) }
    requires birth { IsWithin (length reach.now.groups.now) (life_of x.now).birth }
    requires death { IsWithin (length reach.now.groups.now) (life_of x.now).death }
    ensures { IsTrue result ↔
        IsThereAt reach.now.groups.now (moment_of moment) (life_of x.now) }
{
    precedes(reach, x.birth, moment) && !precedes(reach, x.death, moment)
}

/// The packages that are there at the moment, where just what comes before has happened.
pub fn there_at<'a>(
    alloc: Global,
    index: &Index<'a>,
    moment: Moment,
) -> Result<Vec<&'a Pkg>, AllocError>
    requires is { IsIndex index.now }
    requires moment { IsWithin (length (plan_of index.now)) (moment_of moment) }
    ensures { IfOk result (λ found.
        AreThereAt (plan_of index.now) (start_of index.now) (moment_of moment)
        (map (λ p. p.now) found.items)) }
{
    let mut found = Vec::new(alloc);
    for x in index.lives {
        if is_there_at(index.reach, moment, x) {
            found.push(x.pkg)?;
        }
    }
    Ok(found)
}
