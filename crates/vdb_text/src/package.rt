ghost use Rattle.std.specs.Prelude.{◌≡◌, ◌⊎◌, true, IfErr, IfOk, IsErrOf, IsTrue};
ghost use Rattle.std.specs.Prelude.{MatchResult};
ghost use Rattle.file_tree.specs.Disk.{CountsFault};
ghost use Rattle.file_tree.specs.Paths.{is_path};
ghost use Rattle.vdb_law.specs.Packages.{Installed as InstalledValue};
ghost use Rattle.vdb_record.specs.Faults.{FirstFault};
ghost use Rattle.vdb_record.specs.Texts.{Tell};
ghost use Rattle.vdb_record.specs.Views.{texts_in};
ghost use Rattle.vdb_record.specs.declared.fault.RecordFault.{RecordFault as RecordFaultValue};
ghost use Rattle.vdb_text.specs.Faults.{FolderFault, located};
ghost use Rattle.vdb_text.specs.Machine.{IsOfMachine};
ghost use Rattle.vdb_text.specs.Telling.{HasFilePaths, Tells, folder_path};

use crate::fault::DatabaseFault;
use crate::paths::{file_path, folder_path};
use crate::texts::read_texts;
use basics::Text;
use dep_atom::PackageId;
use file_tree::{Tree, TreeFault};
use std::alloc::{AllocError, Global};
use vdb_record::{Installed, RecordFault, RecordFile, RecordTexts, read_record};

/// The package that the folder of this text tells.
pub(crate) fn read_package<T: Tree>(
    alloc: Global,
    tree: &mut T,
    folder: &Text,
) -> Result<Installed, DatabaseFault>
    requires { is_path (folder_path folder.now) ≡ true }
    ensures found { IsTrue T.tells → IfOk result
        (Tells (T.story tree.old).now.holds folder.now) }
    ensures only { IsTrue T.tells → (p : InstalledValue) →
        Tells (T.story tree.old).now.holds folder.now p →
        MatchResult result (λ r. r ≡ p) IsOfMachine }
    ensures fault { IsTrue T.tells → IfErr result
        (λ e. IsOfMachine e ⊎ FolderFault (T.story tree.old).now.holds folder.now e) }
    ensures same { IsTrue T.tells → T.story tree.new ≡ T.story tree.old }
    ensures faults { CountsFault (IsErrOf result (DatabaseFault.Tree TreeFault.Failed))
        (T.faults tree.old) (T.faults tree.new) }
{
    let folder = folder.as_str();
    let Some(id) = PackageId::from_text(alloc, folder)? else {
        let path = folder_path(alloc, folder)?;
        return Err(DatabaseFault::Name { path });
    };
    let texts = read_texts(alloc, tree, folder)?;
    package_in(alloc, folder, id, &texts)
}

/// The package that the texts of the files in its folder tell.
fn package_in(
    alloc: Global,
    folder: &str,
    id: PackageId,
    texts: &RecordTexts,
) -> Result<Installed, DatabaseFault>
    requires { HasFilePaths folder.now }
    ensures found { IfOk result (λ p. Tell (texts_in texts.now) id p) }
    ensures only { (p : InstalledValue) → Tell (texts_in texts.now) id p →
        MatchResult result (λ r. r ≡ p) (λ e. e ≡ DatabaseFault.Tree TreeFault.Memory) }
    ensures fault { IfErr result
        (λ e. (e ≡ DatabaseFault.Tree TreeFault.Memory) ⊎ ((f : RecordFaultValue)
        × FirstFault (texts_in texts.now) f × (e ≡ located folder.now f))) }
    ensures quiet { IfErr result (λ e. ¬ (e ≡ DatabaseFault.Tree TreeFault.Failed)) }
{
    match read_record(alloc, id, texts) {
        Ok(package) => Ok(package),
        Err(fault) => Err(located(alloc, folder, fault)?),
    }
}

/// The fault of a record, by the path of its file.
fn located(alloc: Global, folder: &str, fault: RecordFault) -> Result<DatabaseFault, AllocError>
    requires { HasFilePaths folder.now }
    ensures told { IfOk result (λ e. e ≡ located folder.now fault) }
    ensures quiet { IfOk result (λ e. ¬ (e ≡ DatabaseFault.Tree TreeFault.Failed)) }
{
    match fault {
        RecordFault::Missing { file } => Ok(DatabaseFault::Missing {
            path: file_path(alloc, folder, file)?,
        }),
        RecordFault::Eapi => Ok(DatabaseFault::Eapi {
            path: file_path(alloc, folder, RecordFile::Eapi)?,
        }),
        RecordFault::Text { file, line } => Ok(DatabaseFault::Text {
            path: file_path(alloc, folder, file)?,
            line,
        }),
        RecordFault::Dep { file, at } => Ok(DatabaseFault::Dep {
            path: file_path(alloc, folder, file)?,
            at,
        }),
        RecordFault::Memory => Ok(DatabaseFault::Tree(TreeFault::Memory)),
    }
}
