ghost use Rattle.std.specs.Prelude.{◌≡◌, ◌<◌, ◌^◌, [], ℕ, List, Ok, true, length, map, IfOk};
ghost use Rattle.std.specs.Prelude.{IsErrOf, IsSome, IsTrue, OnOk};
ghost use Rattle.file_tree.specs.Disk.{CountsFault, IsUntouched};
ghost use Rattle.merge_journal.specs.Judging.{are_free, footprint, judged_open};
ghost use Rattle.merge_journal.specs.Names.{record_path, stage_path};
ghost use Rattle.merge_core.specs.Recovery.{Asked, Recovers, redo, with_placed, with_removed};
ghost use Rattle.merge_core.specs.Roll.{stood};
ghost use Rattle.recovery.specs.Calls.{empty_record, emptied};
ghost use Rattle.merge_journal.specs.Judging.{AreApplicable};
ghost use Rattle.recovery.specs.Found.{IsFound};
ghost use Rattle.recovery.specs.Phases.{IsRedone};

use crate::changes::{place_all, remove_all};
use crate::finding::Journal;
use crate::paths::StagePaths;
use file_tree::{Kind, Object, Tree, TreeFault};
use merge_journal::record_path;
use merge_record::{DecodeFault, Record, encode};
use std::alloc::{AllocError, Global};

/// Does what the record says.
fn apply<T: Tree>(alloc: Global, tree: &mut T, content: &Record) -> Result<(), TreeFault>
    requires free { are_free [] (footprint content.now) ≡ true }
    requires short { length content.now.placements < 2 ^ 32 }
    requires there { IsTrue T.tells → (i : ℕ) → i < length content.now.placements →
        IsSome ((T.story tree.old).now.holds (stage_path content.now.group i)) }
    ensures asked { IsTrue T.tells → Asked (footprint content.now) (T.story tree.old)
        (T.story tree.new) }
    ensures ok { IsTrue T.tells → OnOk result
        ((T.story tree.new).now ≡ with_placed content.now.group 0 content.now.placements
        (with_removed content.now.removals (T.story tree.old).now)) }
    ensures faults { CountsFault (IsErrOf result TreeFault.Failed) (T.faults tree.old)
        (T.faults tree.new) }
{
    let count = content.placements.len() as u32;
    let paths = StagePaths::new(alloc, content.group, count)?;
    remove_all(tree, &content.removals)?;
    place_all(tree, &paths, &content.placements)?;
    Ok(())
}

/// Applies the open groups, in rising order.
fn apply_all<T: Tree>(alloc: Global, tree: &mut T, records: &[Record]) -> Result<(), TreeFault>
    requires judged { IsTrue T.tells →
        judged_open (T.story tree.old).now.holds ≡ Ok records.now }
    requires applicable { AreApplicable records.now }
    requires untouched { IsTrue T.tells → IsUntouched (T.story tree.old).now }
    ensures walks { IsTrue T.tells →
        Recovers (T.story tree.old).now.holds (redo (T.story tree.old).now.holds)
        (T.story tree.old) (T.story tree.new) }
    ensures ok { IsTrue T.tells → OnOk result ((q : List ℕ) → (T.story tree.new).now.holds q ≡
        stood (T.story tree.old).now.holds (redo (T.story tree.old).now.holds) q) }
    ensures faults { CountsFault (IsErrOf result TreeFault.Failed) (T.faults tree.old)
        (T.faults tree.new) }
{
    for content in records {
        apply(alloc, tree, content)?;
    }
    Ok(())
}

/// The record of a group without paths.
fn empty_record(alloc: Global, group: u32) -> Result<Object, AllocError>
    ensures { IfOk result (λ o. o ≡ empty_record group) }
{
    let content = Record {
        group,
        removals: Vec::new(alloc),
        placements: Vec::new(alloc),
    };
    match encode(alloc, &content) {
        Ok(bytes) => Ok(Object {
            kind: Kind::Plain,
            bytes,
        }),
        Err(DecodeFault::Limit) => unreachable!(),
        Err(_) => Err(AllocError),
    }
}

/// Puts a record without paths over that of each group.
fn empty_records<T: Tree>(alloc: Global, tree: &mut T, groups: &[u32]) -> Result<(), TreeFault>
    ensures asked { IsTrue T.tells → Asked (map record_path groups.now) (T.story tree.old)
        (T.story tree.new) }
    ensures ok { IsTrue T.tells → OnOk result
        ((T.story tree.new).now ≡ emptied groups.now (T.story tree.old).now) }
    ensures faults { CountsFault (IsErrOf result TreeFault.Failed) (T.faults tree.old)
        (T.faults tree.new) }
{
    for group in groups {
        let path = record_path(alloc, *group)?;
        let object = empty_record(alloc, *group)?;
        tree.put(&path, &object)?;
    }
    Ok(())
}

/// Applies the open groups, empties the record of each group whose gate is odd, and syncs.
pub(crate) fn redo<T: Tree>(alloc: Global, tree: &mut T, journal: &Journal) -> Result<(), TreeFault>
    requires found { IsTrue T.tells → IsFound (T.story tree.old).now.holds journal.now }
    requires applicable { AreApplicable journal.now.records }
    requires untouched { IsTrue T.tells → IsUntouched (T.story tree.old).now }
    ensures walks { IsTrue T.tells →
        Recovers (T.story tree.old).now.holds (redo (T.story tree.old).now.holds)
        (T.story tree.old) (T.story tree.new) }
    ensures ok { IsTrue T.tells → OnOk result
        (IsRedone (T.story tree.old).now.holds journal.now.gates (T.story tree.new).now) }
    ensures faults { CountsFault (IsErrOf result TreeFault.Failed) (T.faults tree.old)
        (T.faults tree.new) }
{
    apply_all(alloc, tree, &journal.records)?;
    empty_records(alloc, tree, &journal.odd)?;
    tree.sync()?;
    Ok(())
}
