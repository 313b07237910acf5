ghost use Rattle.std.specs.Prelude.{◌≡◌, ◌<◌, IfOk, IsErrOf, IsTrue, MatchOption, length, take};
ghost use Rattle.file_tree.specs.Disk.{CountsFault};
ghost use Rattle.merge_fit.specs.Images.{HoldsPart};

use file_tree::{Look, Path, Tree, TreeFault};
use std::alloc::Global;

/// The part of the path before a slash at a place, where it holds an object.
pub(crate) fn held_part<T: Tree>(
    alloc: Global,
    tree: &mut T,
    path: &Path,
    at: usize,
) -> Result<Option<Path>, TreeFault>
    requires { at < length path.now }
    ensures holds { IsTrue T.tells → IfOk result (λ r.
        MatchOption r (¬ HoldsPart (T.story tree.old).now.holds path.now at)
        (λ p. HoldsPart (T.story tree.old).now.holds path.now at × (p ≡ take at path.now))) }
    ensures same { IsTrue T.tells → T.story tree.new ≡ T.story tree.old }
    ensures faults { CountsFault (IsErrOf result TreeFault.Failed) (T.faults tree.old)
        (T.faults tree.new) }
{
    let Some(above) = path.above(alloc, at)? else {
        return Ok(None);
    };
    match tree.look(&above)? {
        Look::Item(_) => Ok(Some(above)),
        _ => Ok(None),
    }
}
