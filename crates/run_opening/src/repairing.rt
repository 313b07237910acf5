ghost use Rattle.std.specs.Prelude.{◌≡◌, ◌⊎◌, [], List, IfErr, IfOk, IsErrOf, IsTrue, MatchResult};
ghost use Rattle.vdb_law.specs.Packages.{Installed as InstalledValue};
ghost use Rattle.file_tree.specs.Disk.{CountsFault};
ghost use Rattle.vdb_text.specs.Limits.{AreWithin};
ghost use Rattle.pkg_state.specs.Consistent.{AreApart};
ghost use Rattle.law_commit.specs.Lit.{packages_of};
ghost use Rattle.law_run.specs.Openings.{AreOwners};
ghost use Rattle.run_opening.specs.Faults.{ArePast, IsOfMachine, device_failed};
ghost use Rattle.run_opening.specs.Repairs.{HasRepairable, RefusesRepair};

use crate::fault::OpeningFault;
use crate::lines::judged_lines;
use crate::opened::Opening;
use crate::owners::book_of;
use file_tree::Tree;
use pms_names::Flags;
use std::alloc::Global;
use vdb_text::read_database;

/// What a repair with this tree begins with that has these flags on for every package, as
/// [`read_opening`](crate::read_opening) reads it: packages that don't go together are let in, but
/// not two on one line.
pub fn read_repairable<T: Tree>(
    alloc: Global,
    tree: &mut T,
    implicit: &Flags,
) -> Result<Opening, OpeningFault>
    ensures found { IsTrue T.tells → IfOk result
        (λ o. HasRepairable implicit.now (T.story tree.old).now.holds o.packages.items) }
    ensures within { IfOk result (λ o. AreWithin o.packages.items) }
    ensures apart { IfOk result (λ o. AreApart (packages_of implicit.now o.packages.items)) }
    ensures owners { IsTrue T.tells → IfOk result
        (λ o. AreOwners (T.story tree.old).now.holds o.packages.items o.book) }
    ensures unclaimed { IfOk result (λ o. o.book.claims ≡ []) }
    ensures only { IsTrue T.tells → (ps : List InstalledValue) →
        HasRepairable implicit.now (T.story tree.old).now.holds ps →
        MatchResult result (λ o. o.packages.items ≡ ps) (λ e. IsOfMachine e ⊎ ArePast ps e) }
    ensures refused { IsTrue T.tells → IfErr result
        (RefusesRepair implicit.now (T.story tree.old).now.holds) }
    ensures same { IsTrue T.tells → T.story tree.new ≡ T.story tree.old }
    ensures faults { CountsFault (IsErrOf result device_failed) (T.faults tree.old)
        (T.faults tree.new) }
{
    let found = read_database(alloc, tree)?;
    let packages = judged_lines(alloc, found, implicit)?;
    let book = book_of(alloc, tree, &packages)?;
    Ok(Opening { packages, book })
}
