ghost use Rattle.std.specs.Prelude.{◌≡◌, IfOk, IsErrOf, IsTrue, MatchOption};
ghost use Rattle.file_tree.specs.Disk.{CountsFault};
ghost use Rattle.merge_fit.specs.Images.{IsClear, IsFirstBlock, is_passed};

use crate::above::held_part;
use file_tree::{Look, Path, Tree, TreeFault};
use std::alloc::Global;

/// Whether a path that looks so may be written, where it may hold an object or not.
fn is_passed(look: Look, held: bool) -> bool
    ensures { result ≡ is_passed look held }
{
    match look {
        Look::Nothing => true,
        Look::Item(_) => held,
        Look::Folder => false,
    }
}

/// Looks for what keeps an object from being put at a path, which may hold one now or not: the
/// shortest path that blocks it.
pub fn block_of<T: Tree>(
    alloc: Global,
    tree: &mut T,
    path: &Path,
    held: bool,
) -> Result<Option<Path>, TreeFault>
    ensures block { IsTrue T.tells → IfOk result (λ r.
        MatchOption r (IsClear (T.story tree.old).now.holds held path.now)
        (IsFirstBlock (T.story tree.old).now.holds held path.now)) }
    ensures same { IsTrue T.tells → T.story tree.new ≡ T.story tree.old }
    ensures faults { CountsFault (IsErrOf result TreeFault.Failed) (T.faults tree.old)
        (T.faults tree.new) }
{
    for at in 0..path.text().len() {
        if let Some(above) = held_part(alloc, tree, path, at)? {
            return Ok(Some(above));
        }
    }
    let look = tree.look(path)?;
    if is_passed(look, held) {
        return Ok(None);
    }
    Ok(Some(path.try_clone()?))
}
