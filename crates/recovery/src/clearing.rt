ghost use Rattle.std.specs.Prelude.{◌≡◌, ℕ, List, map, IfOk, IsErrOf, IsTrue, OnOk};
ghost use Rattle.file_tree.specs.Disk.{CountsFault, IsUntouched, Map};
ghost use Rattle.file_tree.specs.Moments.{Since};
ghost use Rattle.merge_journal.specs.Names.{gate_path};
ghost use Rattle.merge_core.specs.Recovery.{RecoversOn, redo};
ghost use Rattle.merge_core.specs.Roll.{stood};
ghost use Rattle.recovery.specs.Phases.{IsRedone, IsShut, cleared};
ghost use Rattle.recovery.specs.Promise.{RecoversTo};

use crate::changes::remove_all;
use file_tree::{Path, Tree, TreeFault};
use merge_journal::{gate_path, jobs_folder};
use std::alloc::{AllocError, Global};

/// The gates of the groups.
fn gate_paths(alloc: Global, groups: &[u32]) -> Result<Vec<Path>, AllocError>
    ensures { IfOk result (λ v. v.items ≡ map gate_path groups.now) }
{
    let mut paths = Vec::new(alloc);
    for group in groups {
        paths.push(gate_path(alloc, *group)?)?;
    }
    Ok(paths)
}

/// Removes the gates, and syncs.
pub(crate) fn remove_gates<T: Tree>(
    alloc: Global,
    tree: &mut T,
    groups: &[u32],
) -> Result<(), TreeFault>
    ensures moments { IsTrue T.tells → (a : Map) → IsRedone a groups.now (T.story tree.old).now →
        Since (RecoversOn a) (T.story tree.old) (T.story tree.new) }
    ensures ok { IsTrue T.tells → (a : Map) → IsRedone a groups.now (T.story tree.old).now →
        OnOk result (IsShut (stood a (redo a)) (T.story tree.new).now) }
    ensures faults { CountsFault (IsErrOf result TreeFault.Failed) (T.faults tree.old)
        (T.faults tree.new) }
{
    let paths = gate_paths(alloc, groups)?;
    remove_all(tree, &paths)?;
    tree.sync()?;
    Ok(())
}

/// Removes all that is below the journal's folder, and syncs.
pub fn clear_journal<T: Tree>(alloc: Global, tree: &mut T) -> Result<(), TreeFault>
    ensures moments { IsTrue T.tells → (m : Map) → IsShut m (T.story tree.old).now →
        Since (λ c. RecoversTo c (cleared m)) (T.story tree.old) (T.story tree.new) }
    ensures cleared { IsTrue T.tells → (m : Map) → IsShut m (T.story tree.old).now →
        OnOk result ((q : List ℕ) → (T.story tree.new).now.holds q ≡ cleared m q) }
    ensures settled { IsTrue T.tells → OnOk result (IsUntouched (T.story tree.new).now) }
    ensures faults { CountsFault (IsErrOf result TreeFault.Failed) (T.faults tree.old)
        (T.faults tree.new) }
{
    let jobs = jobs_folder(alloc)?;
    let paths = tree.list(&jobs)?;
    remove_all(tree, &paths)?;
    tree.sync()?;
    Ok(())
}
