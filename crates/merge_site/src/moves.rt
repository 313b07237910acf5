ghost use Rattle.std.specs.Prelude.{◌≡◌, is_ok, nat_lt, IfOk, IsErr};
ghost use Rattle.file_tree.specs.Disk.{CountsFault};
ghost use Rattle.merge_core.specs.Event.{PlacePath, RemovePath};
ghost use Rattle.merge_core.specs.Steps.{IsTaken};
ghost use Rattle.merge_site.specs.Site.{Adds, placements_left};
ghost use Rattle.merge_site.specs.Site.{removals_left};

use crate::calls;
use crate::site::{Site, enter};
use file_tree::{Failed, Sink, Tree};
use merge_core::Step;

impl<T: Tree, S: Sink> Site<T, S> {
    /// Makes the next placement of a group, and tells whether more are left.
    pub fn place(&mut self, group: u32) -> Result<bool, Failed>
        requires taken { IsTaken self.old.keeping group Step.PlacePath }
        ensures event { Adds self.old self.new (PlacePath group) (is_ok result) }
        ensures more { IfOk result (λ more.
            more ≡ nat_lt 0 (placements_left self.new.keeping group)) }
        ensures sink { self.new.sink ≡ self.old.sink }
        ensures faults { CountsFault (IsErr result) (T.faults self.old.tree)
            (T.faults self.new.tree) }
    {
        let stage = self.jobs[group as usize].stage(self.core.placed(group));
        let Some(placement) = self.core.next_placement(group) else {
            unreachable!()
        };
        let answer = calls::place_path(&mut self.tree, group, stage, &placement.path);
        let ok = answer.is_ok();
        enter(
            &mut self.core,
            &mut self.log,
            self.alloc,
            group,
            Step::PlacePath,
            ok,
        );
        match answer {
            Ok(()) => Ok(self.core.left(group).0 > 0),
            Err(failed) => Err(failed),
        }
    }

    /// Makes the next removal of a group, and tells whether more are left.
    pub fn remove_path(&mut self, group: u32) -> Result<bool, Failed>
        requires taken { IsTaken self.old.keeping group Step.RemovePath }
        ensures event { Adds self.old self.new (RemovePath group) (is_ok result) }
        ensures more { IfOk result (λ more.
            more ≡ nat_lt 0 (removals_left self.new.keeping group)) }
        ensures sink { self.new.sink ≡ self.old.sink }
        ensures faults { CountsFault (IsErr result) (T.faults self.old.tree)
            (T.faults self.new.tree) }
    {
        let Some(path) = self.core.next_removal(group) else {
            unreachable!()
        };
        let answer = calls::remove_path(&mut self.tree, group, path);
        let ok = answer.is_ok();
        enter(
            &mut self.core,
            &mut self.log,
            self.alloc,
            group,
            Step::RemovePath,
            ok,
        );
        match answer {
            Ok(()) => Ok(self.core.left(group).1 > 0),
            Err(failed) => Err(failed),
        }
    }
}
