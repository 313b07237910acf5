ghost use Rattle.std.specs.Prelude.{◌≡◌, [], IfOk, IsErrOf, IsTrue};
ghost use Rattle.vdb_law.specs.Database.{IsDatabase, IsTidy};
ghost use Rattle.file_tree.specs.Disk.{CountsFault};
ghost use Rattle.law_run.specs.Openings.{AreOwners};
ghost use Rattle.run_opening.specs.Rows.{AreRows};

use file_tree::{Path, Tree, TreeFault};
use merge_record::OwnerKey;
use owner_book::OwnerBook;
use std::alloc::{AllocError, Global};
use vdb_record::Installed;
use vdb_text::paths_of;

/// The ownership book of a tree with these packages: each owns the paths that it recorded and the
/// files of its own folder, and its key is its place among them.
pub(crate) fn book_of<T: Tree>(
    alloc: Global,
    tree: &mut T,
    packages: &[Installed],
) -> Result<OwnerBook, TreeFault>
    ensures owners { IsTrue T.tells → IsDatabase (T.story tree.old).now.holds packages.now →
        IsTidy packages.now → IfOk result
        (AreOwners (T.story tree.old).now.holds packages.now) }
    ensures unclaimed { IfOk result (λ b. b.claims ≡ []) }
    ensures same { IsTrue T.tells → T.story tree.new ≡ T.story tree.old }
    ensures faults { CountsFault (IsErrOf result TreeFault.Failed) (T.faults tree.old)
        (T.faults tree.new) }
{
    let rows = rows_of(alloc, tree, packages)?;
    Ok(OwnerBook::from_records(alloc, &rows)?)
}

/// The paths of each package, with its key.
fn rows_of<T: Tree>(
    alloc: Global,
    tree: &mut T,
    packages: &[Installed],
) -> Result<Vec<(OwnerKey, Vec<Path>)>, TreeFault>
    ensures rows { IsTrue T.tells → IfOk result
        (λ v. AreRows (T.story tree.old).now.holds 0 packages.now v.items) }
    ensures same { IsTrue T.tells → T.story tree.new ≡ T.story tree.old }
    ensures faults { CountsFault (IsErrOf result TreeFault.Failed) (T.faults tree.old)
        (T.faults tree.new) }
{
    let mut rows = Vec::with_capacity(alloc, packages.len())?;
    for (place, package) in packages.iter().enumerate() {
        let number = u32::try_from(place).map_err(|_| AllocError)?;
        let paths = paths_of(alloc, tree, package)?;
        rows.push((OwnerKey { number }, paths))?;
    }
    Ok(rows)
}
