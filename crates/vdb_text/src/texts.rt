ghost use Rattle.std.specs.Prelude.{◌≡◌, IfOk, IsErrOf, IsTrue};
ghost use Rattle.file_tree.specs.Disk.{CountsFault};
ghost use Rattle.vdb_law.specs.Database.{folder};
ghost use Rattle.vdb_law.specs.Fields.{text_of};
ghost use Rattle.vdb_record.specs.Texts.{folder_texts};
ghost use Rattle.vdb_record.specs.Views.{field_of, texts_in};
ghost use Rattle.vdb_text.specs.Telling.{HasFilePaths, file_path, texts_at};

use crate::paths::file_path;
use dep_atom::PackageId;
use file_tree::{Kind, Object, Tree, TreeFault};
use pkg_state::Class;
use std::alloc::Global;
use vdb_paths::id_is_one;
use vdb_record::{FileText, RecordFile, RecordTexts};

/// The texts of the files of a package's folder. A link in the place of a file counts as missing.
pub fn read_folder<T: Tree>(
    alloc: Global,
    tree: &mut T,
    id: &PackageId,
) -> Result<RecordTexts, TreeFault>
    ensures texts { IsTrue T.tells → IfOk result
        (λ r. texts_in r ≡ folder_texts (folder (T.story tree.old).now.holds id.now)) }
    ensures same { IsTrue T.tells → T.story tree.new ≡ T.story tree.old }
    ensures faults { CountsFault (IsErrOf result TreeFault.Failed) (T.faults tree.old)
        (T.faults tree.new) }
{
    id_is_one(id);
    let folder = id.print(alloc)?;
    read_texts(alloc, tree, folder.as_str())
}

/// The texts of the files in the folder of this text.
pub(crate) fn read_texts<T: Tree>(
    alloc: Global,
    tree: &mut T,
    folder: &str,
) -> Result<RecordTexts, TreeFault>
    requires { HasFilePaths folder.now }
    ensures texts { IsTrue T.tells → IfOk result
        (λ r. texts_in r ≡ texts_at (T.story tree.old).now.holds folder.now) }
    ensures same { IsTrue T.tells → T.story tree.new ≡ T.story tree.old }
    ensures faults { CountsFault (IsErrOf result TreeFault.Failed) (T.faults tree.old)
        (T.faults tree.new) }
{
    let contents = read_text(alloc, tree, folder, RecordFile::Contents)?;
    let eapi = read_text(alloc, tree, folder, RecordFile::Eapi)?;
    let slot = read_text(alloc, tree, folder, RecordFile::Slot)?;
    let enabled = read_text(alloc, tree, folder, RecordFile::Use)?;
    let iuse = read_text(alloc, tree, folder, RecordFile::Iuse)?;
    let required_use = read_text(alloc, tree, folder, RecordFile::RequiredUse)?;
    let rdepend = read_text(alloc, tree, folder, RecordFile::Needs(Class::Rdepend))?;
    let pdepend = read_text(alloc, tree, folder, RecordFile::Needs(Class::Pdepend))?;
    let depend = read_text(alloc, tree, folder, RecordFile::Needs(Class::Depend))?;
    let bdepend = read_text(alloc, tree, folder, RecordFile::Needs(Class::Bdepend))?;
    let idepend = read_text(alloc, tree, folder, RecordFile::Needs(Class::Idepend))?;
    Ok(RecordTexts {
        contents,
        eapi,
        slot,
        enabled,
        iuse,
        required_use,
        rdepend,
        pdepend,
        depend,
        bdepend,
        idepend,
    })
}

/// The text of one of the files.
fn read_text<T: Tree>(
    alloc: Global,
    tree: &mut T,
    folder: &str,
    file: RecordFile,
) -> Result<FileText, TreeFault>
    requires { HasFilePaths folder.now }
    ensures text { IsTrue T.tells → IfOk result
        (λ t. t ≡ texts_at (T.story tree.old).now.holds folder.now (field_of file)) }
    ensures same { IsTrue T.tells → T.story tree.new ≡ T.story tree.old }
    ensures faults { CountsFault (IsErrOf result TreeFault.Failed) (T.faults tree.old)
        (T.faults tree.new) }
{
    let path = file_path(alloc, folder, file)?;
    let object = tree.read(&path)?;
    Ok(text_of(object))
}

fn text_of(object: Option<Object>) -> FileText
    ensures { result ≡ text_of object }
{
    match object {
        Some(Object { kind, bytes }) => match kind {
            Kind::Plain | Kind::Exec => FileText::new(bytes),
            Kind::Link => FileText::missing(),
        },
        None => FileText::missing(),
    }
}
