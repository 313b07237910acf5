ghost use Rattle.std.specs.Prelude.{◌≡◌, ◌⊎◌, List, IfErr, IfOk, IsErrOf, IsTrue, MatchResult};
ghost use Rattle.file_tree.specs.Disk.{CountsFault};
ghost use Rattle.vdb_law.specs.Database.{IsDatabase, IsTidy};
ghost use Rattle.vdb_law.specs.Packages.{Installed as InstalledValue};
ghost use Rattle.vdb_text.specs.Faults.{ArePast, FirstFault, IsFirstBadFolder, IsFirstOf};
ghost use Rattle.vdb_text.specs.Limits.{AreWithin};
ghost use Rattle.vdb_text.specs.Machine.{IsOfMachine};
ghost use Rattle.vdb_text.specs.Telling.{AreAtPaths, TellAll};

use crate::fault::DatabaseFault;
use crate::folders::list_folders;
use crate::owned::{tidy, too_much};
use crate::package::read_package;
use basics::Text;
use file_tree::{Tree, TreeFault};
use std::alloc::Global;
use vdb_record::Installed;

/// The installed packages of a tree, in byte order of their folders. First come the faults of the
/// folders, one after the other in that order, then that there is too much of something, and then
/// those of what the packages own.
pub fn read_database<T: Tree>(alloc: Global, tree: &mut T) -> Result<Vec<Installed>, DatabaseFault>
    ensures found { IsTrue T.tells → IfOk result
        (λ v. IsDatabase (T.story tree.old).now.holds v.items) }
    ensures within { IfOk result (λ v. AreWithin v.items) }
    ensures tidy { IfOk result (λ v. IsTidy v.items) }
    ensures only { IsTrue T.tells → (ps : List InstalledValue) →
        IsDatabase (T.story tree.old).now.holds ps → IsTidy ps →
        MatchResult result (λ v. v.items ≡ ps) (λ e. IsOfMachine e ⊎ ArePast ps e) }
    ensures fault { IsTrue T.tells → IfErr result
        (λ e. IsOfMachine e ⊎ FirstFault (T.story tree.old).now.holds e) }
    ensures same { IsTrue T.tells → T.story tree.new ≡ T.story tree.old }
    ensures faults { CountsFault (IsErrOf result (DatabaseFault.Tree TreeFault.Failed))
        (T.faults tree.old) (T.faults tree.new) }
{
    let packages = read_folders(alloc, tree)?;
    match too_much(&packages) {
        Some(quantity) => Err(DatabaseFault::Limit { quantity }),
        None => tidy(alloc, packages),
    }
}

/// The packages of all folders that count.
fn read_folders<T: Tree>(alloc: Global, tree: &mut T) -> Result<Vec<Installed>, DatabaseFault>
    ensures found { IsTrue T.tells → IfOk result
        (λ v. IsDatabase (T.story tree.old).now.holds v.items) }
    ensures only { IsTrue T.tells → (ps : List InstalledValue) →
        IsDatabase (T.story tree.old).now.holds ps →
        MatchResult result (λ v. v.items ≡ ps) IsOfMachine }
    ensures fault { IsTrue T.tells → IfErr result
        (λ e. IsOfMachine e ⊎ IsFirstBadFolder (T.story tree.old).now.holds e) }
    ensures same { IsTrue T.tells → T.story tree.new ≡ T.story tree.old }
    ensures faults { CountsFault (IsErrOf result (DatabaseFault.Tree TreeFault.Failed))
        (T.faults tree.old) (T.faults tree.new) }
{
    let folders = list_folders(alloc, tree)?;
    read_packages(alloc, tree, &folders)
}

/// The packages of these folders, one after the other.
fn read_packages<T: Tree>(
    alloc: Global,
    tree: &mut T,
    folders: &[Text],
) -> Result<Vec<Installed>, DatabaseFault>
    requires { AreAtPaths folders.now }
    ensures found { IsTrue T.tells → IfOk result
        (λ v. TellAll (T.story tree.old).now.holds folders.now v.items) }
    ensures only { IsTrue T.tells → (ps : List InstalledValue) →
        TellAll (T.story tree.old).now.holds folders.now ps →
        MatchResult result (λ v. v.items ≡ ps) IsOfMachine }
    ensures fault { IsTrue T.tells → IfErr result
        (λ e. IsOfMachine e ⊎ IsFirstOf (T.story tree.old).now.holds folders.now e) }
    ensures same { IsTrue T.tells → T.story tree.new ≡ T.story tree.old }
    ensures faults { CountsFault (IsErrOf result (DatabaseFault.Tree TreeFault.Failed))
        (T.faults tree.old) (T.faults tree.new) }
{
    let mut packages = Vec::new(alloc);
    for folder in folders {
        packages.push(read_package(alloc, tree, folder)?)?;
    }
    Ok(packages)
}
