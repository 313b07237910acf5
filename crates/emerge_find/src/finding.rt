ghost use Rattle.std.specs.Prelude.{◌≡◌, [], IfErr, IfOk, IsErrAnd, IsTrue};
ghost use Rattle.file_tree.specs.Disk.{CountsFault};
ghost use Rattle.visible_set.specs.Configured.{IsRead as CanBeRead};
ghost use Rattle.law_run.specs.Openings.{AreOwners};
ghost use Rattle.profile_stack.specs.Files.{Config};
ghost use Rattle.emerge_find.specs.Choices.{IsFound};
ghost use Rattle.emerge_find.specs.Ends.{IsDeviceFailure};
ghost use Rattle.emerge_find.specs.Refusals.{IsRead, Refuses};
ghost use Rattle.emerge_find.specs.Shapes.{IsInShape};

use crate::asked::{Asked, flips_of};
use crate::choosing::plan_over;
use crate::ends::NoPlan;
use crate::found::Found;
use crate::source::source_of;
use file_tree::Tree;
use run_opening::read_opening;
use std::alloc::Global;
use visible_set::read_offers;

/// What is to be merged into a recovered tree. First come the faults of its configuration and the
/// limit of its candidates, then those of the text of a plan's file, then those of its installed
/// packages, then those of the choice or of the file's plan.
pub fn find_plan<T: Tree>(alloc: Global, tree: &mut T, asked: Asked) -> Result<Found, NoPlan>
    ensures found { IsTrue T.tells →
        IfOk result (IsFound (T.story tree.old).now.holds asked) }
    ensures shape { IfOk result (λ f. IsInShape f.chosen) }
    ensures owners { IsTrue T.tells → IfOk result
        (λ f. AreOwners (T.story tree.old).now.holds f.packages.items f.book) }
    ensures unclaimed { IfOk result (λ f. f.book.claims ≡ []) }
    ensures refused { IsTrue T.tells →
        IfErr result (Refuses (T.story tree.old).now.holds asked) }
    ensures read { IsTrue T.tells → (c : Config) → CanBeRead (T.story tree.old).now.holds c →
        IfErr result (IsRead (T.story tree.old).now.holds) }
    ensures same { IsTrue T.tells → T.story tree.new ≡ T.story tree.old }
    ensures faults { CountsFault (IsErrAnd result IsDeviceFailure) (T.faults tree.old)
        (T.faults tree.new) }
{
    let offers = read_offers(alloc, tree, flips_of(&asked.aim))?;
    let source = source_of(alloc, tree, asked.aim)?;
    let opening = read_opening(alloc, tree, &offers.implicit)?;
    plan_over(alloc, opening, offers, source)
}
