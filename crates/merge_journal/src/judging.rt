ghost use Rattle.std.specs.Prelude.{◌≡◌, ◌<◌, ◌^◌, ◌∷◌, ◌++◌, [], false, length, map, not, true};
ghost use Rattle.std.specs.Prelude.{IfOk, IsErrOf, IsTrue, OnOk};
ghost use Rattle.std.specs.Bool.{OnTrue};
ghost use Rattle.file_tree.specs.Disk.{CountsFault};
ghost use Rattle.merge_journal.specs.Judging.{Agrees, AreApplicable, are_free, footprint, is_free};
ghost use Rattle.file_tree.specs.PathSets.{HasSame};
ghost use Rattle.merge_journal.specs.Judging.{is_staged, judged, judged_all, meets_jobs, path_of};
ghost use Rattle.merge_journal.specs.Judging.{paths_judged, record_in, record_read, stages_judged};
ghost use Rattle.merge_journal.specs.Names.{record_path};
ghost use Rattle.file_tree.specs.Fixed.{jobs};
ghost use Rattle.merge_record.specs.Reading.{record_of};

use crate::fault::JudgeFault;
use crate::names::{jobs_folder, record_path, stage_path};
use file_tree::{Object, Path, TakenPaths, Tree, TreeFault};
use merge_record::{DecodeFault, Placement, Record, byte_of, decode, digest_of};
use std::alloc::{AllocError, Global};

#[tactic(auto, unfolding(crate::specs::Judging::record_read))]
fn record_from(alloc: Global, group: u32, bytes: &[u8]) -> Result<Record, JudgeFault>
    ensures answer { Agrees (λ r. r) result (record_read group (record_of bytes.now)) }
    ensures device { ¬ IsErrOf result (JudgeFault.Tree TreeFault.Failed) }
    ensures few { IfOk result (λ r. length r.placements < 2 ^ 32) }
{
    match decode(alloc, bytes) {
        Ok(value) => Ok(value),
        Err(DecodeFault::Memory) => Err(JudgeFault::Tree(TreeFault::Memory)),
        Err(_) => Err(JudgeFault::BadRecord { group }),
    }
}

/// The record of a group, whatever object it is.
#[tactic(auto, unfolding(crate::specs::Judging::record_read, crate::specs::Judging::record_in))]
fn read_record<T: Tree>(alloc: Global, tree: &mut T, group: u32) -> Result<Record, JudgeFault>
    ensures answer { IsTrue T.tells → Agrees (λ r. r) result
        (record_read group (record_in ((T.story tree.old).now.holds (record_path group)))) }
    ensures few { IfOk result (λ r. length r.placements < 2 ^ 32) }
    ensures same { IsTrue T.tells → T.story tree.new ≡ T.story tree.old }
    ensures faults { CountsFault (IsErrOf result (JudgeFault.Tree TreeFault.Failed))
        (T.faults tree.old) (T.faults tree.new) }
{
    let path = record_path(alloc, group)?;
    match tree.read(&path)? {
        Some(object) => record_from(alloc, group, &object.bytes),
        None => Err(JudgeFault::BadRecord { group }),
    }
}

/// Takes a path if it is free. The journal's folder is handed in.
pub fn take_free(
    alloc: Global,
    journal: &Path,
    path: &Path,
    taken: &mut TakenPaths,
) -> Result<bool, AllocError>
    requires { journal.now ≡ jobs }
    ensures free { IfOk result (λ free. free ≡ is_free taken.old path.now) }
    ensures taken { IfOk result (λ free. OnTrue free (HasSame taken.new (path.now ∷ taken.old))) }
{
    if path == journal || journal.is_above(path) || path.is_above(journal) {
        return Ok(false);
    }
    taken.take(alloc, path)
}

/// Takes the paths one after the other, until one isn't free.
pub fn take_paths(
    alloc: Global,
    journal: &Path,
    paths: &[Path],
    taken: &mut TakenPaths,
) -> Result<bool, AllocError>
    requires { journal.now ≡ jobs }
    ensures free { IfOk result (λ free. free ≡ are_free taken.old paths.now) }
    ensures taken { IfOk result (λ free. OnTrue free (HasSame taken.new (paths.now ++ taken.old))) }
{
    for path in paths {
        if !take_free(alloc, journal, path, taken)? {
            return Ok(false);
        }
    }
    Ok(true)
}

fn take_placements(
    alloc: Global,
    journal: &Path,
    placements: &[Placement],
    taken: &mut TakenPaths,
) -> Result<bool, AllocError>
    requires { journal.now ≡ jobs }
    ensures free { IfOk result (λ free. free ≡ are_free taken.old (map path_of placements.now)) }
    ensures taken { IfOk result (λ free.
        OnTrue free (HasSame taken.new (map path_of placements.now ++ taken.old))) }
{
    for placement in placements {
        if !take_free(alloc, journal, &placement.path, taken)? {
            return Ok(false);
        }
    }
    Ok(true)
}

fn take_footprint(
    alloc: Global,
    group: u32,
    value: &Record,
    taken: &mut TakenPaths,
) -> Result<(), JudgeFault>
    ensures answer { Agrees (λ _. tt) result (paths_judged taken.old group value.now) }
    ensures device { ¬ IsErrOf result (JudgeFault.Tree TreeFault.Failed) }
    ensures taken { OnOk result (HasSame taken.new (footprint value.now ++ taken.old)) }
{
    if value.group != group {
        return Err(JudgeFault::BadRecord { group });
    }
    let journal = jobs_folder(alloc)?;
    if !take_paths(alloc, &journal, &value.removals, taken)? {
        return Err(JudgeFault::BadRecord { group });
    }
    if !take_placements(alloc, &journal, &value.placements, taken)? {
        return Err(JudgeFault::BadRecord { group });
    }
    Ok(())
}

#[tactic(auto, unfolding(crate::specs::Judging::is_staged))]
fn is_as_recorded(object: &Object, placement: &Placement) -> bool
    ensures { result ≡ is_staged (Some object.now) placement.now }
{
    byte_of(object.kind) == byte_of(placement.kind)
        && object.bytes.len() as u64 == placement.length
        && digest_of(&object.bytes) == placement.md5
}

#[tactic(auto, unfolding(crate::specs::Judging::stages_judged, crate::specs::Judging::is_staged))]
fn judge_stage<T: Tree>(
    alloc: Global,
    tree: &mut T,
    group: u32,
    index: u32,
    placement: &Placement,
) -> Result<(), JudgeFault>
    ensures answer { IsTrue T.tells → Agrees (λ _. tt) result
        (stages_judged (T.story tree.old).now.holds group index (placement.now ∷ [])) }
    ensures same { IsTrue T.tells → T.story tree.new ≡ T.story tree.old }
    ensures faults { CountsFault (IsErrOf result (JudgeFault.Tree TreeFault.Failed))
        (T.faults tree.old) (T.faults tree.new) }
{
    let path = stage_path(alloc, group, index)?;
    match tree.read(&path)? {
        Some(object) if is_as_recorded(&object, placement) => Ok(()),
        _ => Err(JudgeFault::BadStage { group, index }),
    }
}

fn judge_stages<T: Tree>(
    alloc: Global,
    tree: &mut T,
    group: u32,
    placements: &[Placement],
) -> Result<(), JudgeFault>
    requires { length placements.now < 2 ^ 32 }
    ensures answer { IsTrue T.tells → Agrees (λ _. tt) result
        (stages_judged (T.story tree.old).now.holds group 0 placements.now) }
    ensures same { IsTrue T.tells → T.story tree.new ≡ T.story tree.old }
    ensures faults { CountsFault (IsErrOf result (JudgeFault.Tree TreeFault.Failed))
        (T.faults tree.old) (T.faults tree.new) }
{
    for index in 0..placements.len() {
        judge_stage(alloc, tree, group, index as u32, &placements[index])?;
    }
    Ok(())
}

/// Judges an open group: its record, and then its stages. The paths that it has are taken after Ok;
/// after an error the taken paths may be some more.
pub fn judge<T: Tree>(
    alloc: Global,
    tree: &mut T,
    group: u32,
    taken: &mut TakenPaths,
) -> Result<Record, JudgeFault>
    ensures answer { IsTrue T.tells → Agrees (λ r. r) result
        (judged (T.story tree.old).now.holds taken.old group) }
    ensures taken { IfOk result (λ r. HasSame taken.new (footprint r ++ taken.old)) }
    ensures free { IfOk result (λ r. are_free taken.old (footprint r) ≡ true) }
    ensures few { IfOk result (λ r. length r.placements < 2 ^ 32) }
    ensures same { IsTrue T.tells → T.story tree.new ≡ T.story tree.old }
    ensures faults { CountsFault (IsErrOf result (JudgeFault.Tree TreeFault.Failed))
        (T.faults tree.old) (T.faults tree.new) }
{
    let value = read_record(alloc, tree, group)?;
    take_footprint(alloc, group, &value, taken)?;
    judge_stages(alloc, tree, group, &value.placements)?;
    Ok(value)
}

/// Judges open groups in this order, each against the paths of those before it.
pub fn judge_all<T: Tree>(
    alloc: Global,
    tree: &mut T,
    groups: &[u32],
) -> Result<Vec<Record>, JudgeFault>
    ensures answer { IsTrue T.tells → Agrees (λ v. v.items) result
        (judged_all (T.story tree.old).now.holds [] groups.now) }
    ensures applicable { IfOk result (λ v. AreApplicable v.items) }
    ensures same { IsTrue T.tells → T.story tree.new ≡ T.story tree.old }
    ensures faults { CountsFault (IsErrOf result (JudgeFault.Tree TreeFault.Failed))
        (T.faults tree.old) (T.faults tree.new) }
{
    let mut taken = TakenPaths::new(alloc);
    let mut records = Vec::new(alloc);
    for group in groups {
        records.push(judge(alloc, tree, *group, &mut taken)?)?;
    }
    Ok(records)
}
