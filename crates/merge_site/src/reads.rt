ghost use Rattle.std.specs.Prelude.{◌≡◌, ◌<◌, IsTrue, length};
ghost use Rattle.file_tree.specs.Moments.{Leaves, Since};
ghost use Rattle.merge_core.specs.CoreValue.{machine_of};
ghost use Rattle.merge_core.specs.Phases.{phase_of};
ghost use Rattle.merge_core.specs.Roll.{RecoversCommitted, idle, phase_at};
ghost use Rattle.merge_core.specs.Trail.{machine_after};
ghost use Rattle.merge_site.specs.Booking.{IsBooked};
ghost use Rattle.merge_site.specs.Site.{AreApart, IsHeld, StoodDuring, placements_left};
ghost use Rattle.merge_site.specs.Site.{removals_left};

use crate::site::Site;
use file_tree::{Sink, Tree};
use merge_core::{Core, Phase};

impl<T: Tree, S: Sink> Site<T, S> {
    /// How far a group has come.
    pub fn phase(&self, group: u32) -> Phase
        requires { group < length self.now.keeping.standings }
        ensures { phase_at (machine_of self.now.keeping).roll group ≡ phase_of result }
    {
        match self.core.phase(group) {
            Some(phase) => phase,
            None => unreachable!(),
        }
    }

    /// Whether an event failed; then no other may come but that a group is given up.
    pub fn is_stopped(&self) -> bool
        ensures { result ≡ self.now.keeping.stopped }
    {
        self.core.is_stopped()
    }

    /// How many placements and how many removals of a group aren't made yet.
    pub fn left(&self, group: u32) -> (usize, usize)
        requires { group < length self.now.keeping.standings }
        ensures placements { result.0 ≡ placements_left self.now.keeping group }
        ensures removals { result.1 ≡ removals_left self.now.keeping group }
    {
        self.core.left(group)
    }

    /// What a site promises between two calls. It only says so.
    pub fn promise(&self)
        ensures leads { machine_after idle self.now.events ≡ machine_of self.now.keeping }
        ensures held { IsTrue T.tells → IsHeld self.now.keeping self.now.events
            (T.story self.now.opened) (T.story self.now.tree) }
        ensures stands { IsTrue T.tells → Leaves (RecoversCommitted (T.story self.now.opened).now.holds
            (machine_of self.now.keeping).roll) (T.story self.now.tree).now }
        ensures moments { IsTrue T.tells → Since
            (StoodDuring (T.story self.now.opened).now.holds idle self.now.events)
            (T.story self.now.opened) (T.story self.now.tree) }
        ensures apart { AreApart (machine_of self.now.keeping).roll }
        ensures booked { IsBooked self.now.keeping self.now.events self.now.wishes
            self.now.opened_book self.now.book }
    {
        let _groups = self.core.groups();
    }

    /// The tree, the sink and the machine.
    pub fn into_parts(self) -> (T, S, Core)
        ensures tree { result.0 ≡ self.tree }
        ensures sink { result.1 ≡ self.sink }
        ensures machine { result.2 ≡ self.keeping }
    {
        let Site {
            alloc: _,
            tree,
            sink,
            core,
            groups: _,
            jobs: _,
            wishes: _,
            book: _,
            opened_book: _,
            mark: _,
            opened: _,
            log: _,
        } = self;
        (tree, sink, core)
    }
}
