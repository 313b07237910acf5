ghost use Rattle.std.specs.Prelude.{◌≡◌, ◌⊎◌, IfErr, IfOk, IsErrOf, IsTrue, OnOk};
ghost use Rattle.file_tree.specs.Disk.{CountsFault, IsImage, IsUntouched};
ghost use Rattle.file_tree.specs.Moments.{Since};
ghost use Rattle.merge_journal.specs.Open.{open_groups};
ghost use Rattle.recovery.specs.Promise.{IsFaultOf, IsRefusal, RecoversAlike, RecoversTo};

use crate::clearing::{clear_journal, remove_gates};
use crate::fault::RecoverFault;
use crate::finding::read_journal;
use crate::redoing::redo;
use file_tree::{Tree, TreeFault};
use std::alloc::Global;

/// The groups that a recovery completed, in rising order.
#[derive(Debug, Drop)]
pub struct Recovered {
    pub completed: Vec<u32>,
}

/// Makes of a tree the recovered tree of what it reads as: the open groups are applied, and nothing
/// stands below the journal's folder.
pub fn recover<T: Tree>(alloc: Global, tree: &mut T) -> Result<Recovered, RecoverFault>
    // After Ok the tree reads as the recovered tree of what it read as, and a crash leaves that.
    ensures recovered { IsTrue T.tells → OnOk result
        (RecoversTo (T.story tree.old).now.holds (T.story tree.new).now.holds ×
        IsUntouched (T.story tree.new).now) }
    ensures completed { IsTrue T.tells → IfOk result
        (λ r. r.completed.items ≡ open_groups (T.story tree.old).now.holds) }
    // Each image of each moment since the call began is one of its beginning, or recovery takes it
    // and makes the same tree of it.
    ensures moments { IsTrue T.tells → Since
        (λ c. IsImage (T.story tree.old).now c ⊎ RecoversAlike (T.story tree.old).now.holds c)
        (T.story tree.old) (T.story tree.new) }
    // A refusal is the one fault of the tree, and then the tree reads as before.
    ensures refused { IsTrue T.tells → IfErr result
        (λ e. IsFaultOf e (T.story tree.old).now.holds) }
    ensures unchanged { IsTrue T.tells → IfErr result
        (λ e. IsRefusal e → (T.story tree.new).now.holds ≡ (T.story tree.old).now.holds) }
    ensures faults { CountsFault (IsErrOf result (RecoverFault.Tree TreeFault.Failed))
        (T.faults tree.old) (T.faults tree.new) }
{
    tree.sync()?;
    let journal = read_journal(alloc, tree)?;
    redo(alloc, tree, &journal)?;
    remove_gates(alloc, tree, &journal.gates)?;
    clear_journal(alloc, tree)?;
    Ok(Recovered {
        completed: journal.opened,
    })
}
