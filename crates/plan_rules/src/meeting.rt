ghost use Rattle.std.specs.Prelude.{◌≡◌, ◌↔◌, IsTrue, length};
ghost use Rattle.plan_law.specs.Lives.{Meets, stretch_of};
ghost use Rattle.plan_lives.specs.IsReach.{IsReach};
ghost use Rattle.plan_lives.specs.Lives.{life_of, moment_of};
ghost use Rattle.plan_lives.specs.Stretches.{IsStretchWithin, IsWithin, stretch_value};
ghost use Rattle.plan_rules.specs.Order.{number_of};
ghost use Rattle.basics.specs.Limits.{most_groups};

use plan_lives::{Life, Moment, Reach, Stretch};

/// Whether the package may be there at some time of the stretch.
pub fn meets(reach: &Reach<'_>, stretch: &Stretch, y: &Life<'_>) -> bool
    requires is { IsReach reach.now }
    requires stretch { IsStretchWithin (length reach.now.groups.now) (stretch_value stretch.now) }
    requires birth { IsWithin (length reach.now.groups.now) (life_of y.now).birth }
    requires death { IsWithin (length reach.now.groups.now) (life_of y.now).death }
    ensures { IsTrue result ↔
        Meets reach.now.groups.now (stretch_value stretch.now) (life_of y.now) }
{
    !stretch.is_past(reach, y.death) && !stretch.is_ahead(reach, y.birth)
}

/// The stretch through which the package is there.
pub fn stretch_of(x: &Life<'_>) -> Stretch
    ensures { stretch_value result ≡ stretch_of (life_of x.now) }
{
    Stretch::WhileThere {
        birth: x.birth,
        death: x.death,
    }
}

/// The number of the group that brings what is there from this moment on.
pub fn number_of(moment: Moment) -> usize
    requires { IsWithin most_groups (moment_of moment) }
    ensures { result ≡ number_of (moment_of moment) }
{
    match moment {
        Moment::Opening => 0,
        Moment::Commit(g) => g + 1,
        Moment::Never => 0,
    }
}
