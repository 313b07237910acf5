ghost use Rattle.std.specs.Prelude.{◌≡◌, false, is_ok, None, Some, IsErr, IsTrue};
ghost use Rattle.file_tree.specs.Disk.{CountsFault};
ghost use Rattle.merge_core.specs.Event.{Acknowledge, SyncClosed, needs_sync};
ghost use Rattle.merge_core.specs.CoreValue.{machine_of};
ghost use Rattle.merge_core.specs.Steps.{IsTaken};
ghost use Rattle.owner_book.specs.Book.{ChangesClaim, HasSettled, ClaimValue, claim_in};
ghost use Rattle.merge_site.specs.Site.{Adds, Writes};

use crate::site::{Site, enter, sync_step};
use file_tree::{Failed, Sink, Tree};
use merge_core::Step;
use owner_book::OwnerBook;

/// Settles the claim of a group whose last sync was answered Ok.
fn settle_synced(book: &mut OwnerBook, group: u32, is_synced: bool)
    ensures owners { IsTrue is_synced → (c : ClaimValue) →
        claim_in book.old.claims group ≡ Some c → HasSettled book.old book.new c }
    ensures claims { IsTrue is_synced → ChangesClaim book.old book.new group None }
    ensures before { is_synced ≡ false → book.new ≡ book.old }
{
    if is_synced {
        book.settle(group);
    }
}

impl<T: Tree, S: Sink> Site<T, S> {
    /// Makes the closed gate of a group durable, and its claim what is owned.
    pub fn sync_closed(&mut self, group: u32) -> Result<(), Failed>
        requires taken { IsTaken self.old.keeping group Step.SyncClosed }
        ensures event { Adds self.old self.new (SyncClosed group) (is_ok result) }
        ensures idle { needs_sync (machine_of self.old.keeping) group ≡ false →
            self.new.tree ≡ self.old.tree }
        ensures sink { self.new.sink ≡ self.old.sink }
        ensures faults { CountsFault (IsErr result) (T.faults self.old.tree)
            (T.faults self.new.tree) }
    {
        let answer = sync_step(
            &mut self.tree,
            &mut self.core,
            &mut self.log,
            self.alloc,
            group,
            Step::SyncClosed,
        );
        settle_synced(&mut self.book, group, answer.is_ok());
        answer
    }

    /// Writes the line of a group that is done.
    pub fn acknowledge(&mut self, group: u32) -> Result<(), Failed>
        requires taken { IsTaken self.old.keeping group Step.Acknowledge }
        ensures event { Adds self.old self.new (Acknowledge group) (is_ok result) }
        ensures writes { IsTrue S.tells → Writes self.old.groups group (is_ok result)
            (S.written self.old.sink) (S.written self.new.sink) }
        ensures tree { self.new.tree ≡ self.old.tree }
        ensures faults { CountsFault (IsErr result) (S.faults self.old.sink)
            (S.faults self.new.sink) }
    {
        let line = &self.groups[group as usize].line;
        let answer = self.sink.write(line);
        let ok = answer.is_ok();
        enter(
            &mut self.core,
            &mut self.log,
            self.alloc,
            group,
            Step::Acknowledge,
            ok,
        );
        answer
    }
}
