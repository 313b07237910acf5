ghost use Rattle.std.specs.Prelude.{◌≡◌, ◌↔◌, ◌++◌, ℕ, List, IfOk, IsErrOf, IsTrue, OnOk};
ghost use Rattle.std.specs.Prelude.{codes, map};
ghost use Rattle.basics.specs.Members.{Has};
ghost use Rattle.dep_atom.specs.Ids.{id_text};
ghost use Rattle.file_tree.specs.Disk.{CountsFault};
ghost use Rattle.vdb_contents.specs.Contents.{path_of};
ghost use Rattle.vdb_law.specs.Step.{Owns};

use file_tree::{Path, Tree, TreeFault};
use pkg_state::Pkg;
use std::alloc::{AllocError, Global};
use vdb_contents::Owned;
use vdb_paths::path_of_package;
use vdb_record::Installed;

/// The paths that a package owns: those in its own folder of the tree's database, and then those that
/// it recorded.
pub fn paths_of<T: Tree>(
    alloc: Global,
    tree: &mut T,
    package: &Installed,
) -> Result<Vec<Path>, TreeFault>
    ensures owned { IsTrue T.tells → IfOk result (λ v. (q : List ℕ) →
        Has v.items q ↔ Owns (T.story tree.old).now.holds «package».now q) }
    ensures same { IsTrue T.tells → T.story tree.new ≡ T.story tree.old }
    ensures faults { CountsFault (IsErrOf result TreeFault.Failed) (T.faults tree.old)
        (T.faults tree.new) }
{
    let folder = folder_of(alloc, &package.pkg)?;
    let mut paths = tree.list(&folder)?;
    add_recorded(&package.owned, &mut paths)?;
    Ok(paths)
}

fn add_recorded(owned: &[Owned], paths: &mut Vec<Path>) -> Result<(), AllocError>
    ensures { OnOk result (paths.new.items ≡ paths.old.items ++ map path_of owned.now) }
{
    for one in owned {
        paths.push(one.path.try_clone()?)?;
    }
    Ok(())
}

/// The package's own folder in the database.
fn folder_of(alloc: Global, pkg: &Pkg) -> Result<Path, AllocError>
    ensures { IfOk result (λ p. p ≡ codes "var/db/pkg/" ++ id_text pkg.now.facts.id) }
{
    path_of_package(alloc, &pkg.facts.id)
}
