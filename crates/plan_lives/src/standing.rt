ghost use Rattle.std.specs.Prelude.{◌↔◌, IsTrue};
ghost use Rattle.plan_law.specs.Lives.{ComesBefore, StandsBefore};
ghost use Rattle.plan_lives.specs.Lives.{life_of, moment_of};

use crate::life::{Life, Moment};

fn comes_before(moment: Moment, g: usize) -> bool
    ensures { IsTrue result ↔ ComesBefore (moment_of moment) g }
{
    match moment {
        Moment::Opening => true,
        Moment::Commit(h) => h < g,
        Moment::Never => false,
    }
}

/// Whether the package is there just before the group.
pub fn stands_before(x: &Life<'_>, g: usize) -> bool
    ensures { IsTrue result ↔ StandsBefore g (life_of x.now) }
{
    comes_before(x.birth, g) && !comes_before(x.death, g)
}
