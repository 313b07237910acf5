ghost use Rattle.std.specs.Prelude.{◌≡◌, ◌⊎◌, length, IfErr, IfOk, IsErrOf};
ghost use Rattle.file_tree.specs.ObjectValue.{plain};
ghost use Rattle.merge_record.specs.Spelling.{IsSpellable, PassesLimit, spelling};
ghost use Rattle.merge_core.specs.Core.{standing_in};
ghost use Rattle.merge_core.specs.Event.{Admits, PutRecord, answered, put_content};
ghost use Rattle.merge_core.specs.CoreValue.{machine_of};
ghost use Rattle.merge_core.specs.Payloads.{IsAt, with_answer, with_record};

use crate::machine::Core;
use crate::phase::Phase;
use crate::refusal::Refusal;
use file_tree::{Kind, Object, Path};
use merge_record::DecodeFault;
use std::alloc::Global;

impl Core {
    /// The object that is to be put as the record of these removals and the group's stages; the
    /// removals come back.
    pub fn spell_record(
        &mut self,
        alloc: Global,
        group: u32,
        removals: Vec<Path>,
    ) -> Result<(Vec<Path>, Object), Refusal>
        requires at { IsAt self.old group Phase.Building }
        ensures removals { IfOk result (λ r. r.0.items ≡ removals.items) }
        ensures object { IfOk result (λ r. r.1 ≡
            plain (spelling (put_content (machine_of self.old) group removals.items))) }
        ensures fits { IfOk result (λ _.
            IsSpellable (put_content (machine_of self.old) group removals.items)) }
        ensures limit { IsErrOf result Refusal.Limit →
            PassesLimit (put_content (machine_of self.old) group removals.items) }
        ensures only { IfErr result (λ e. (e ≡ Refusal.Limit) ⊎ (e ≡ Refusal.Memory)) }
        ensures kept { self.new ≡ self.old }
    {
        let standing = &mut self.standings[group as usize];
        match standing.spell(alloc, group, removals) {
            Ok((removals, bytes)) => {
                let kind = Kind::Plain;
                Ok((removals, Object { kind, bytes }))
            }
            Err(DecodeFault::Limit) => Err(Refusal::Limit),
            Err(_) => Err(Refusal::Memory),
        }
    }

    fn set_record(&mut self, group: u32, removals: Vec<Path>, body: &Object, ok: bool)
        requires at { IsAt self.old group Phase.Building }
        requires body { body.now ≡
            plain (spelling (put_content (machine_of self.old) group removals.items)) }
        ensures { self.new ≡ with_answer self.old group (with_record ok self.old.syncs group
            removals.items (standing_in self.old.standings group)) ok }
    {
        let syncs = self.syncs;
        let standing = &mut self.standings[group as usize];
        standing.take_record(removals, body, ok, syncs);
        self.stopped = !ok || self.stopped;
    }

    /// Takes the record of a group, whose call was answered. It takes no memory.
    pub fn take_record(&mut self, group: u32, removals: Vec<Path>, body: &Object, ok: bool)
        requires at { IsAt self.old group Phase.Building }
        requires fits { IsSpellable (put_content (machine_of self.old) group removals.items) }
        requires body { body.now ≡
            plain (spelling (put_content (machine_of self.old) group removals.items)) }
        ensures admitted { Admits (machine_of self.old) (PutRecord group removals.items) }
        ensures done { machine_of self.new ≡
            answered (machine_of self.old) (PutRecord group removals.items) ok }
        ensures groups { length self.new.standings ≡ length self.old.standings }
    {
        self.set_record(group, removals, body, ok);
    }
}
