ghost use Rattle.std.specs.Prelude.{◌≡◌, ◌⊎◌, [], List, IfErr, IfOk, IsErrOf, IsTrue, MatchResult};
ghost use Rattle.vdb_law.specs.Packages.{Installed as InstalledValue};
ghost use Rattle.file_tree.specs.Disk.{CountsFault};
ghost use Rattle.vdb_text.specs.Limits.{AreWithin};
ghost use Rattle.pkg_state.specs.Consistent.{AreConsistent};
ghost use Rattle.law_commit.specs.Lit.{packages_of};
ghost use Rattle.law_run.specs.Openings.{AreOwners, HasOpening};
ghost use Rattle.run_opening.specs.Faults.{ArePast, IsOfMachine, Refuses, device_failed};

use crate::fault::OpeningFault;
use crate::judging::judged;
use crate::opened::Opening;
use crate::owners::book_of;
use file_tree::Tree;
use pms_names::Flags;
use std::alloc::Global;
use vdb_text::read_database;

/// What a run with this tree begins with that has these flags on for every package: the packages come
/// back as they are recorded. First come the faults of the database and its limits, then that its
/// packages don't go together.
pub fn read_opening<T: Tree>(
    alloc: Global,
    tree: &mut T,
    implicit: &Flags,
) -> Result<Opening, OpeningFault>
    ensures found { IsTrue T.tells → IfOk result
        (λ o. HasOpening implicit.now (T.story tree.old).now.holds o.packages.items) }
    ensures within { IfOk result (λ o. AreWithin o.packages.items) }
    ensures consistent { IfOk result
        (λ o. AreConsistent (packages_of implicit.now o.packages.items)) }
    ensures owners { IsTrue T.tells → IfOk result
        (λ o. AreOwners (T.story tree.old).now.holds o.packages.items o.book) }
    ensures unclaimed { IfOk result (λ o. o.book.claims ≡ []) }
    ensures only { IsTrue T.tells → (ps : List InstalledValue) →
        HasOpening implicit.now (T.story tree.old).now.holds ps →
        MatchResult result (λ o. o.packages.items ≡ ps) (λ e. IsOfMachine e ⊎ ArePast ps e) }
    ensures refused { IsTrue T.tells → IfErr result
        (Refuses implicit.now (T.story tree.old).now.holds) }
    ensures same { IsTrue T.tells → T.story tree.new ≡ T.story tree.old }
    ensures faults { CountsFault (IsErrOf result device_failed) (T.faults tree.old)
        (T.faults tree.new) }
{
    let found = read_database(alloc, tree)?;
    let packages = judged(alloc, found, implicit)?;
    let book = book_of(alloc, tree, &packages)?;
    Ok(Opening { packages, book })
}
