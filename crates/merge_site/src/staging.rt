ghost use Rattle.std.specs.Prelude.{◌≡◌, ◌<◌, ◌≤◌, true, false, List, Some, IfErr, IsErrOf};
ghost use Rattle.std.specs.Prelude.{IsTrue, OnErr, OnOk, length, slice_get};
ghost use Rattle.file_tree.specs.Disk.{CountsFault};
ghost use Rattle.merge_core.specs.Event.{PutStage};
ghost use Rattle.merge_core.specs.Payloads.{IsAt};
ghost use Rattle.merge_site.specs.Booking.{lists_of, wish_for, with_wish};
ghost use Rattle.merge_site.specs.Site.{Adds, KeepsHistory, JobValue};
ghost use Rattle.merge_site.specs.Staging.{HasMore, HasPast, IsStageFault, MayStage};
ghost use Rattle.merge_site.specs.Staging.{placement_of};
ghost use Rattle.owner_book.specs.declared.wish.Wish.{Wish};

use crate::fault::StageFault;
use crate::job::Job;
use crate::site::{Site, enter_stage};
use crate::wishes::{add_wish, drop_wish};
use file_tree::{Entry, Object, Path, Sink, Tree, TreeFault};
use merge_core::Phase;
use merge_fit::{bad_by, is_good};
use merge_record::{MOST_GROUP_PATHS, OwnerKey, Placement, digest_of};
use owner_book::Wish;
use std::alloc::{AllocError, Global};

/// How a record tells the object that a path is to hold.
fn placement_of(path: Path, object: &Object) -> Placement
    ensures { result ≡ placement_of (record { path = path; object = object.now }) }
{
    Placement {
        path,
        kind: object.kind,
        length: object.bytes.len() as u64,
        md5: digest_of(&object.bytes),
    }
}

/// Makes the path of a group's stage with this index, unless there is one.
fn make_place(jobs: &mut Vec<Job>, alloc: Global, group: u32, index: u32) -> Result<(), AllocError>
    requires there { group < length jobs.old.items }
    requires next { (p : JobValue) → slice_get jobs.old.items group ≡ Some p → index ≤ p.staged }
    ensures made { OnOk result (HasPast jobs.new.items group index) }
    ensures more { HasMore jobs.old.items jobs.new.items }
{
    jobs[group as usize].make_stage(alloc, index)
}

/// Takes the last wish of a group away, whose stage isn't put for this fault.
fn unstaged(wishes: &mut Vec<Vec<Wish>>, group: u32, fault: TreeFault) -> Result<(), StageFault>
    requires { group < length wishes.old.items }
    ensures fault { IsErrOf result (StageFault.Tree fault) }
    ensures wishes { (ws : List (List Wish)) (w : Wish) → group < length ws →
        lists_of wishes.old.items ≡ with_wish ws group w → lists_of wishes.new.items ≡ ws }
{
    drop_wish(wishes, group);
    Err(StageFault::Tree(fault))
}

impl<T: Tree, S: Sink> Site<T, S> {
    /// Puts the object of an entry as the group's next stage, and takes the wish for its path: who is
    /// to own it, and whether it is a file of the package's own folder. A rule that refuses the entry is
    /// told before the device is asked; then, and where memory runs out, no event came.
    pub fn stage(
        &mut self,
        group: u32,
        owner: OwnerKey,
        folder: bool,
        entry: Entry,
    ) -> Result<(), StageFault>
        requires at { IsAt self.old.keeping group Phase.Building }
        ensures ok { OnOk result
            (Adds self.old self.new (PutStage group (placement_of entry) entry.object) true) }
        ensures failed { IsErrOf result (StageFault.Tree TreeFault.Failed) →
            Adds self.old self.new (PutStage group (placement_of entry) entry.object) false }
        ensures wishes { OnOk result (self.new.wishes ≡
            with_wish self.old.wishes group (wish_for owner folder entry)) }
        ensures unwished { OnErr result (self.new.wishes ≡ self.old.wishes) }
        ensures taken { OnOk result (MayStage self.old.keeping group entry) }
        ensures refused { IfErr result (IsStageFault self.old.keeping group entry) }
        ensures kept { ¬ IsErrOf result (StageFault.Tree TreeFault.Failed) →
            OnErr result (KeepsHistory self.old self.new) }
        ensures same { IsTrue T.tells → ¬ IsErrOf result (StageFault.Tree TreeFault.Failed) →
            OnErr result (T.story self.new.tree ≡ T.story self.old.tree) }
        ensures sink { self.new.sink ≡ self.old.sink }
        ensures faults { CountsFault (IsErrOf result (StageFault.Tree TreeFault.Failed))
            (T.faults self.old.tree) (T.faults self.new.tree) }
    {
        if !is_good(&entry) {
            let bad = bad_by(entry.object.kind, entry.path);
            return Err(StageFault::Image(bad));
        }
        let staged = self.core.staged(group);
        if staged >= MOST_GROUP_PATHS {
            return Err(StageFault::Limit);
        }
        if make_place(&mut self.jobs, self.alloc, group, staged as u32).is_err() {
            return Err(StageFault::Tree(TreeFault::Memory));
        }
        let Entry { path, object } = entry;
        if add_wish(&mut self.wishes, group, &path, owner, folder).is_err() {
            return Err(StageFault::Tree(TreeFault::Memory));
        }
        let place = self.jobs[group as usize].stage(staged);
        let placement = placement_of(path, &object);
        let answer = enter_stage(
            &mut self.tree,
            &mut self.core,
            &mut self.log,
            group,
            place,
            placement,
            &object,
        );
        match answer {
            Ok(true) => Ok(()),
            Ok(false) => unstaged(&mut self.wishes, group, TreeFault::Failed),
            Err(_) => unstaged(&mut self.wishes, group, TreeFault::Memory),
        }
    }
}
