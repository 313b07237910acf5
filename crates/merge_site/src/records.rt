ghost use Rattle.std.specs.Prelude.{◌≡◌, true, false, IsErrOf, IsTrue, OnErr, OnOk};
ghost use Rattle.file_tree.specs.Disk.{CountsFault};
ghost use Rattle.merge_record.specs.Spelling.{PassesLimit};
ghost use Rattle.merge_core.specs.Event.{PutRecord, put_content};
ghost use Rattle.merge_core.specs.CoreValue.{machine_of};
ghost use Rattle.merge_core.specs.Payloads.{IsAt};
ghost use Rattle.merge_site.specs.Site.{Adds, KeepsHistory};

use crate::calls;
use crate::fault::SiteFault;
use crate::site::{Site, enter_record};
use file_tree::{Path, Sink, Tree, TreeFault};
use merge_core::Phase;

impl<T: Tree, S: Sink> Site<T, S> {
    /// Puts the record of a group, which removes these paths and places what was staged. Want of
    /// memory and a record past a limit change nothing.
    pub fn put_record(&mut self, group: u32, removals: Vec<Path>) -> Result<(), SiteFault>
        requires at { IsAt self.old.keeping group Phase.Building }
        ensures ok { OnOk result (Adds self.old self.new (PutRecord group removals.items) true) }
        ensures failed { IsErrOf result (SiteFault.Tree TreeFault.Failed) →
            Adds self.old self.new (PutRecord group removals.items) false }
        ensures limit { IsErrOf result SiteFault.Limit →
            PassesLimit (put_content (machine_of self.old.keeping) group removals.items) }
        ensures refused { (¬ IsErrOf result (SiteFault.Tree TreeFault.Failed)) →
            OnErr result (KeepsHistory self.old self.new) }
        ensures same { IsTrue T.tells → (¬ IsErrOf result (SiteFault.Tree TreeFault.Failed)) →
            OnErr result (T.story self.new.tree ≡ T.story self.old.tree) }
        ensures sink { self.new.sink ≡ self.old.sink }
        ensures faults { CountsFault (IsErrOf result (SiteFault.Tree TreeFault.Failed))
            (T.faults self.old.tree) (T.faults self.new.tree) }
    {
        let (removals, body) = match self.core.spell_record(self.alloc, group, removals) {
            Ok(spelled) => spelled,
            Err(refusal) => return Err(SiteFault::of(refusal)),
        };
        let changes = self.jobs[group as usize].changes();
        let answer = calls::put_record(&mut self.tree, group, changes, &body);
        if let Err(TreeFault::Memory) = answer {
            return Err(SiteFault::Tree(TreeFault::Memory));
        }
        let ok = answer.is_ok();
        enter_record(&mut self.core, &mut self.log, group, removals, &body, ok);
        match answer {
            Ok(()) => Ok(()),
            Err(fault) => Err(SiteFault::Tree(fault)),
        }
    }
}
