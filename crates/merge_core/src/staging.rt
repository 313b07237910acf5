ghost use Rattle.std.specs.Prelude.{◌≡◌, ◌<◌, ◌⊎◌, ◌++◌, ◌∷◌, ◌^◌, [], false, length, Ok, Some};
ghost use Rattle.std.specs.Prelude.{IfErr};
ghost use Rattle.std.specs.Prelude.{IfOk, IsErrOf, IsTrue, OnErr, OnOk, vec_capacity, vec_len};
ghost use Rattle.file_tree.specs.Disk.{CountsFault};
ghost use Rattle.merge_journal.specs.Judging.{IsStaged};
ghost use Rattle.merge_core.specs.Core.{standing_in};
ghost use Rattle.merge_core.specs.Event.{Admits, Answers, Asks, PutStage, answered};
ghost use Rattle.merge_core.specs.CoreValue.{machine_of};
ghost use Rattle.merge_core.specs.Payloads.{IsAt, IsFull, with_answer, with_stage};

use crate::machine::Core;
use crate::phase::Phase;
use crate::refusal::Refusal;
use crate::standing::Standing;
use file_tree::{Object, Path, Tree, TreeFault};
use merge_record::Placement;
use std::alloc::AllocError;
use std::snapshot::Snapshot;

/// Puts the object, and tells whether the device did. Where memory runs out, nothing is done.
fn put_on<T: Tree>(tree: &mut T, place: &Path, object: &Object) -> Result<bool, AllocError>
    ensures answers { IsTrue T.tells → IfOk result (λ ok.
        Answers (Asks place.now (Some object.now)) ok (T.story tree.old) (T.story tree.new)) }
    ensures same { IsTrue T.tells → OnErr result (T.story tree.new ≡ T.story tree.old) }
    ensures faults { CountsFault (result ≡ Ok false) (T.faults tree.old) (T.faults tree.new) }
{
    match tree.put(place, object) {
        Ok(()) => Ok(true),
        Err(TreeFault::Failed) => Ok(false),
        Err(TreeFault::Memory) => Err(AllocError),
    }
}

/// Puts the item at the end of the list, which has room for it.
fn add<T: Drop>(list: &mut Vec<T>, item: T)
    requires { vec_len list.old < vec_capacity list.old }
    ensures { list.new.items ≡ list.old.items ++ item ∷ [] }
{
    if list.push(item).is_err() {
        unreachable!();
    }
}

impl Standing {
    /// Puts the object as the group's next stage. The room is taken before the device is asked.
    pub(crate) fn stage_on<T: Tree>(
        &mut self,
        tree: &mut T,
        place: &Path,
        placement: Placement,
        object: &Object,
        syncs: u64,
    ) -> Result<bool, AllocError>
        ensures taken { IfOk result (λ ok.
            self.new ≡ with_stage ok syncs placement object.now self.old) }
        ensures kept { OnErr result (self.new ≡ self.old) }
        ensures answers { IsTrue T.tells → IfOk result (λ ok.
            Answers (Asks place.now (Some object.now)) ok (T.story tree.old) (T.story tree.new)) }
        ensures same { IsTrue T.tells → OnErr result (T.story tree.new ≡ T.story tree.old) }
        ensures faults { CountsFault (result ≡ Ok false) (T.faults tree.old) (T.faults tree.new) }
    {
        self.placements.reserve(1)?;
        self.objects.reserve(1)?;
        let ok = put_on(tree, place, object)?;
        self.stamp = syncs;
        if ok {
            add(&mut self.placements, placement);
            add(&mut self.objects, Snapshot::of(object));
        }
        Ok(ok)
    }
}

impl Core {
    fn stage_at_on<T: Tree>(
        &mut self,
        tree: &mut T,
        group: u32,
        place: &Path,
        placement: Placement,
        object: &Object,
    ) -> Result<bool, AllocError>
        requires { IsAt self.old group Phase.Building }
        ensures taken { IfOk result (λ ok. self.new ≡
            with_answer self.old group (with_stage ok self.old.syncs placement object.now
            (standing_in self.old.standings group)) ok) }
        ensures kept { OnErr result (self.new ≡ self.old) }
        ensures answers { IsTrue T.tells → IfOk result (λ ok.
            Answers (Asks place.now (Some object.now)) ok (T.story tree.old) (T.story tree.new)) }
        ensures same { IsTrue T.tells → OnErr result (T.story tree.new ≡ T.story tree.old) }
        ensures faults { CountsFault (result ≡ Ok false) (T.faults tree.old) (T.faults tree.new) }
    {
        let syncs = self.syncs;
        let standing = &mut self.standings[group as usize];
        let ok = standing.stage_on(tree, place, placement, object, syncs)?;
        self.stopped = !ok || self.stopped;
        Ok(ok)
    }

    /// Puts the object as the group's next stage, and tells whether the device did. The room is
    /// taken before the device is asked, so that want of memory changes nothing. Of the object no
    /// byte is kept.
    pub fn stage_on<T: Tree>(
        &mut self,
        tree: &mut T,
        group: u32,
        place: &Path,
        placement: Placement,
        object: &Object,
    ) -> Result<bool, Refusal>
        requires at { IsAt self.old group Phase.Building }
        requires staged { IsStaged (Some object.now) placement }
        ensures admitted { OnOk result (Admits (machine_of self.old)
            (PutStage group placement object.now)) }
        ensures done { IfOk result (λ ok. machine_of self.new ≡
            answered (machine_of self.old) (PutStage group placement object.now) ok) }
        ensures groups { length self.new.standings ≡ length self.old.standings }
        ensures answers { IsTrue T.tells → IfOk result (λ ok.
            Answers (Asks place.now (Some object.now)) ok (T.story tree.old) (T.story tree.new)) }
        ensures limit { IsErrOf result Refusal.Limit →
            IsFull (standing_in self.old.standings group) }
        ensures only { IfErr result (λ e. (e ≡ Refusal.Limit) ⊎ (e ≡ Refusal.Memory)) }
        ensures kept { OnErr result (self.new ≡ self.old) }
        ensures same { IsTrue T.tells → OnErr result (T.story tree.new ≡ T.story tree.old) }
        ensures faults { CountsFault (result ≡ Ok false) (T.faults tree.old) (T.faults tree.new) }
    {
        if self.standings[group as usize].is_full() {
            return Err(Refusal::Limit);
        }
        match self.stage_at_on(tree, group, place, placement, object) {
            Ok(ok) => Ok(ok),
            Err(_) => Err(Refusal::Memory),
        }
    }
}
