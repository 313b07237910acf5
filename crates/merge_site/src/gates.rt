ghost use Rattle.std.specs.Prelude.{◌≡◌, is_ok, IsErr, IsErrOf, IsTrue};
ghost use Rattle.file_tree.specs.Disk.{CountsFault};
ghost use Rattle.merge_core.specs.Event.{OpenGate, PutToken};
ghost use Rattle.merge_core.specs.Steps.{IsTaken};
ghost use Rattle.merge_site.specs.Site.{Adds, KeepsHistory};

use crate::calls;
use crate::site::{Site, enter};
use file_tree::{Failed, Sink, Tree, TreeFault};
use merge_core::Step;

impl<T: Tree, S: Sink> Site<T, S> {
    /// Puts the token with which the gate of a group is opened. Where memory runs out, no event
    /// came.
    pub fn put_token(&mut self, group: u32) -> Result<(), TreeFault>
        requires taken { IsTaken self.old.keeping group Step.PutToken }
        ensures event { (¬ IsErrOf result TreeFault.Memory) →
            Adds self.old self.new (PutToken group) (is_ok result) }
        ensures memory { IsErrOf result TreeFault.Memory → KeepsHistory self.old self.new }
        ensures same { IsTrue T.tells → IsErrOf result TreeFault.Memory →
            T.story self.new.tree ≡ T.story self.old.tree }
        ensures sink { self.new.sink ≡ self.old.sink }
        ensures faults { CountsFault (IsErrOf result TreeFault.Failed) (T.faults self.old.tree)
            (T.faults self.new.tree) }
    {
        let token = self.jobs[group as usize].token();
        let answer = calls::put_token(&mut self.tree, group, token, &self.mark);
        if let Err(TreeFault::Memory) = answer {
            return Err(TreeFault::Memory);
        }
        let ok = answer.is_ok();
        enter(
            &mut self.core,
            &mut self.log,
            self.alloc,
            group,
            Step::PutToken,
            ok,
        );
        answer
    }

    /// Opens the gate of a group: from here on a crash may leave its changes.
    pub fn open_gate(&mut self, group: u32) -> Result<(), Failed>
        requires taken { IsTaken self.old.keeping group Step.OpenGate }
        ensures event { Adds self.old self.new (OpenGate group) (is_ok result) }
        ensures sink { self.new.sink ≡ self.old.sink }
        ensures faults { CountsFault (IsErr result) (T.faults self.old.tree)
            (T.faults self.new.tree) }
    {
        let job = &self.jobs[group as usize];
        let answer = calls::open_gate(&mut self.tree, group, job.token(), job.gate());
        let ok = answer.is_ok();
        enter(
            &mut self.core,
            &mut self.log,
            self.alloc,
            group,
            Step::OpenGate,
            ok,
        );
        answer
    }
}
