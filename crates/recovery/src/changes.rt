ghost use Rattle.std.specs.Prelude.{◌≡◌, ◌<◌, ℕ, false, IsErr, IsSome, IsTrue, OnOk, length, map};
ghost use Rattle.basics.specs.Members.{Has};
ghost use Rattle.file_tree.specs.Disk.{CountsFault};
ghost use Rattle.file_tree.specs.Paths.{is_below};
ghost use Rattle.merge_core.specs.Recovery.{Asked, with_placed, with_removed};
ghost use Rattle.merge_journal.specs.Judging.{path_of};
ghost use Rattle.merge_journal.specs.Names.{stage_path};
ghost use Rattle.file_tree.specs.Fixed.{jobs};
ghost use Rattle.merge_record.specs.declared.record.Placement.{Placement};

use crate::paths::StagePaths;
use file_tree::{Failed, Path, Tree};
use merge_record::Placement;

/// Makes each path hold nothing.
pub(crate) fn remove_all<T: Tree>(tree: &mut T, removals: &[Path]) -> Result<(), Failed>
    ensures asked { IsTrue T.tells → Asked removals.now (T.story tree.old) (T.story tree.new) }
    ensures ok { IsTrue T.tells → OnOk result
        ((T.story tree.new).now ≡ with_removed removals.now (T.story tree.old).now) }
    ensures faults { CountsFault (IsErr result) (T.faults tree.old) (T.faults tree.new) }
{
    for path in removals {
        tree.remove(path)?;
    }
    Ok(())
}

/// Makes the path of each placement hold what its stage holds.
pub(crate) fn place_all<T: Tree>(
    tree: &mut T,
    paths: &StagePaths,
    placements: &[Placement],
) -> Result<(), Failed>
    requires count { paths.now.count ≡ length placements.now }
    requires apart { (p : Placement) → Has placements.now p → is_below jobs p.path ≡ false }
    requires there { IsTrue T.tells → (i : ℕ) → i < length placements.now →
        IsSome ((T.story tree.old).now.holds (stage_path paths.now.group i)) }
    ensures asked { IsTrue T.tells → Asked (map path_of placements.now) (T.story tree.old)
        (T.story tree.new) }
    ensures ok { IsTrue T.tells → OnOk result
        ((T.story tree.new).now ≡
        with_placed paths.now.group 0 placements.now (T.story tree.old).now) }
    ensures faults { CountsFault (IsErr result) (T.faults tree.old) (T.faults tree.new) }
{
    let stages = &paths.stages;
    for index in 0..placements.len() {
        tree.place(&stages[index], &placements[index].path)?;
    }
    Ok(())
}
