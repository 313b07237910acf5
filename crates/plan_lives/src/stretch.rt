ghost use Rattle.std.specs.Prelude.{◌≡◌, ◌↔◌, IsTrue, length};
ghost use Rattle.plan_law.specs.Lives.{IsAhead, IsPast, Precedes, commit};
ghost use Rattle.plan_lives.specs.IsReach.{IsReach};
ghost use Rattle.plan_lives.specs.Lives.{moment_of};
ghost use Rattle.plan_lives.specs.Stretches.{IsStretchWithin, IsWithin, stretch_value};

use crate::life::Moment;
use crate::reach::Reach;

/// A stretch of each run: while a package is there, or while a group may come.
#[derive(Clone, Copy, Debug)]
pub enum Stretch {
    WhileThere { birth: Moment, death: Moment },
    Until(usize),
}

/// Whether one moment comes before another in each run.
pub(crate) fn precedes(reach: &Reach<'_>, earlier: Moment, later: Moment) -> bool
    requires is { IsReach reach.now }
    requires earlier { IsWithin (length reach.now.groups.now) (moment_of earlier) }
    requires later { IsWithin (length reach.now.groups.now) (moment_of later) }
    ensures { IsTrue result ↔
        Precedes reach.now.groups.now (moment_of earlier) (moment_of later) }
{
    match earlier {
        Moment::Opening => true,
        Moment::Commit(h) => match later {
            Moment::Opening => false,
            Moment::Commit(g) => reach.reaches(h, g),
            Moment::Never => true,
        },
        Moment::Never => match later {
            Moment::Opening => false,
            Moment::Commit(_) => false,
            Moment::Never => true,
        },
    }
}

/// Whether the moment is the commit of the group.
pub fn is_commit_of(moment: Moment, g: usize) -> bool
    ensures { IsTrue result ↔ (moment_of moment ≡ commit g) }
{
    match moment {
        Moment::Opening => false,
        Moment::Commit(h) => h == g,
        Moment::Never => false,
    }
}

impl Stretch {
    /// Whether what happens at the moment has happened before the stretch begins.
    pub fn is_past(&self, reach: &Reach<'_>, moment: Moment) -> bool
        requires is { IsReach reach.now }
        requires stretch { IsStretchWithin (length reach.now.groups.now) (stretch_value self.now) }
        requires moment { IsWithin (length reach.now.groups.now) (moment_of moment) }
        ensures { IsTrue result ↔
            IsPast reach.now.groups.now (stretch_value self.now) (moment_of moment) }
    {
        match *self {
            Stretch::WhileThere { birth, .. } => precedes(reach, moment, birth),
            Stretch::Until(g) => {
                precedes(reach, moment, Moment::Commit(g)) && !is_commit_of(moment, g)
            }
        }
    }

    /// Whether what happens at the moment doesn't happen before the stretch ends.
    pub fn is_ahead(&self, reach: &Reach<'_>, moment: Moment) -> bool
        requires is { IsReach reach.now }
        requires stretch { IsStretchWithin (length reach.now.groups.now) (stretch_value self.now) }
        requires moment { IsWithin (length reach.now.groups.now) (moment_of moment) }
        ensures { IsTrue result ↔
            IsAhead reach.now.groups.now (stretch_value self.now) (moment_of moment) }
    {
        match *self {
            Stretch::WhileThere { death, .. } => precedes(reach, death, moment),
            Stretch::Until(g) => precedes(reach, Moment::Commit(g), moment),
        }
    }
}
