ghost use Rattle.std.specs.Prelude.{◌≡◌, ◌≤◌, ◌⊎◌, ℕ, List};
ghost use Rattle.std.specs.Prelude.{Err, IfErr, IsErrOf, IsOk, IsTrue, OnOk};
ghost use Rattle.file_tree.specs.Disk.{IsUntouched, Map, Rose};
ghost use Rattle.file_tree.specs.Faults.{IsOfMachine};
ghost use Rattle.file_tree.specs.Moments.{Since};
ghost use Rattle.recovery.specs.Promise.{RecoversTo};
ghost use Rattle.recovery.specs.Phases.{IsShut, cleared};

use crate::stop::Stop;
use file_tree::{Tree, TreeFault};
use recovery::clear_journal;
use std::alloc::Global;

/// Clears the journal behind its closed gates, unless the device failed, and tells how the run
/// ended then.
pub(crate) fn clear<T: Tree>(alloc: Global, tree: &mut T, end: Result<(), Stop>) -> Result<(), Stop>
    ensures failed { IsTrue T.tells → IsErrOf end (Stop.Tree TreeFault.Failed) →
        T.story tree.new ≡ T.story tree.old }
    ensures moments { IsTrue T.tells → (¬ IsErrOf end (Stop.Tree TreeFault.Failed)) → (m : Map) →
        IsShut m (T.story tree.old).now →
        Since (λ c. RecoversTo c (cleared m)) (T.story tree.old) (T.story tree.new) }
    ensures cleared { IsTrue T.tells → (¬ IsErrOf result (Stop.Tree TreeFault.Failed)) →
        (¬ IsErrOf result (Stop.Tree TreeFault.Memory)) → (m : Map) →
        IsShut m (T.story tree.old).now → (q : List ℕ) →
        (T.story tree.new).now.holds q ≡ cleared m q }
    ensures settled { IsTrue T.tells → (¬ IsErrOf result (Stop.Tree TreeFault.Failed)) →
        (¬ IsErrOf result (Stop.Tree TreeFault.Memory)) → IsUntouched (T.story tree.new).now }
    ensures ok { OnOk result (IsOk end) }
    ensures told { IfErr result (λ e. IsOfMachine Stop.Tree e ⊎ (end ≡ Err e)) }
    ensures output { IsErrOf result Stop.Output → IsErrOf end Stop.Output }
    ensures device { IsErrOf end (Stop.Tree TreeFault.Failed) →
        IsErrOf result (Stop.Tree TreeFault.Failed) }
    ensures count { T.faults tree.old ≤ T.faults tree.new }
    ensures rose { IsErrOf result (Stop.Tree TreeFault.Failed) →
        (¬ IsErrOf end (Stop.Tree TreeFault.Failed)) →
        Rose (T.faults tree.old) (T.faults tree.new) }
{
    if let Err(Stop::Tree(TreeFault::Failed)) = end {
        return end;
    }
    match clear_journal(alloc, tree) {
        Ok(()) => end,
        Err(fault) => Err(Stop::Tree(fault)),
    }
}
