ghost use Rattle.std.specs.Prelude.{◌≡◌, false, true, is_ok, IsErr};
ghost use Rattle.file_tree.specs.Disk.{CountsFault};
ghost use Rattle.merge_core.specs.Event.{Abandon, Begin, CloseGate, SyncGate};
ghost use Rattle.merge_core.specs.Event.{SyncPlaced, SyncSealed, needs_sync};
ghost use Rattle.merge_core.specs.CoreValue.{machine_of};
ghost use Rattle.merge_core.specs.Steps.{IsTaken};
ghost use Rattle.merge_site.specs.Site.{Adds};

use crate::calls;
use crate::site::{Site, enter, sync_step};
use file_tree::{Failed, Sink, Tree};
use merge_core::Step;

impl<T: Tree, S: Sink> Site<T, S> {
    /// A group begins.
    pub fn begin(&mut self, group: u32)
        requires taken { IsTaken self.old.keeping group Step.Begin }
        ensures event { Adds self.old self.new (Begin group) true }
        ensures sink { self.new.sink ≡ self.old.sink }
        ensures tree { self.new.tree ≡ self.old.tree }
    {
        enter(
            &mut self.core,
            &mut self.log,
            self.alloc,
            group,
            Step::Begin,
            true,
        );
    }

    /// A group that has no claim yet is given up.
    pub fn abandon(&mut self, group: u32)
        requires taken { IsTaken self.old.keeping group Step.Abandon }
        ensures event { Adds self.old self.new (Abandon group) true }
        ensures sink { self.new.sink ≡ self.old.sink }
        ensures tree { self.new.tree ≡ self.old.tree }
    {
        enter(
            &mut self.core,
            &mut self.log,
            self.alloc,
            group,
            Step::Abandon,
            true,
        );
    }

    /// Makes the stages, the record and the token of a group durable.
    pub fn sync_sealed(&mut self, group: u32) -> Result<(), Failed>
        requires taken { IsTaken self.old.keeping group Step.SyncSealed }
        ensures event { Adds self.old self.new (SyncSealed group) (is_ok result) }
        ensures idle { needs_sync (machine_of self.old.keeping) group ≡ false →
            self.new.tree ≡ self.old.tree }
        ensures sink { self.new.sink ≡ self.old.sink }
        ensures faults { CountsFault (IsErr result) (T.faults self.old.tree)
            (T.faults self.new.tree) }
    {
        sync_step(
            &mut self.tree,
            &mut self.core,
            &mut self.log,
            self.alloc,
            group,
            Step::SyncSealed,
        )
    }

    /// Makes the opened gate of a group durable.
    pub fn sync_gate(&mut self, group: u32) -> Result<(), Failed>
        requires taken { IsTaken self.old.keeping group Step.SyncGate }
        ensures event { Adds self.old self.new (SyncGate group) (is_ok result) }
        ensures idle { needs_sync (machine_of self.old.keeping) group ≡ false →
            self.new.tree ≡ self.old.tree }
        ensures sink { self.new.sink ≡ self.old.sink }
        ensures faults { CountsFault (IsErr result) (T.faults self.old.tree)
            (T.faults self.new.tree) }
    {
        sync_step(
            &mut self.tree,
            &mut self.core,
            &mut self.log,
            self.alloc,
            group,
            Step::SyncGate,
        )
    }

    /// Makes the changed paths of a group durable.
    pub fn sync_placed(&mut self, group: u32) -> Result<(), Failed>
        requires taken { IsTaken self.old.keeping group Step.SyncPlaced }
        ensures event { Adds self.old self.new (SyncPlaced group) (is_ok result) }
        ensures idle { needs_sync (machine_of self.old.keeping) group ≡ false →
            self.new.tree ≡ self.old.tree }
        ensures sink { self.new.sink ≡ self.old.sink }
        ensures faults { CountsFault (IsErr result) (T.faults self.old.tree)
            (T.faults self.new.tree) }
    {
        sync_step(
            &mut self.tree,
            &mut self.core,
            &mut self.log,
            self.alloc,
            group,
            Step::SyncPlaced,
        )
    }

    /// Removes the gate of a group whose paths are placed.
    pub fn close_gate(&mut self, group: u32) -> Result<(), Failed>
        requires taken { IsTaken self.old.keeping group Step.CloseGate }
        ensures event { Adds self.old self.new (CloseGate group) (is_ok result) }
        ensures sink { self.new.sink ≡ self.old.sink }
        ensures faults { CountsFault (IsErr result) (T.faults self.old.tree)
            (T.faults self.new.tree) }
    {
        let gate = self.jobs[group as usize].gate();
        let answer = calls::close_gate(&mut self.tree, group, gate);
        let ok = answer.is_ok();
        enter(
            &mut self.core,
            &mut self.log,
            self.alloc,
            group,
            Step::CloseGate,
            ok,
        );
        answer
    }
}
