ghost use Rattle.std.specs.Prelude.{◌≡◌, true, IfOk};
ghost use Rattle.file_tree.specs.Paths.{is_path};
ghost use Rattle.vdb_record.specs.Views.{field_of};
ghost use Rattle.vdb_text.specs.Telling.{HasFilePaths, file_path, folder_path};

use file_tree::{DATABASE, Path};
use std::alloc::{AllocError, Global};
use vdb_record::RecordFile;

/// The path of the folder of this text.
pub(crate) fn folder_path(alloc: Global, folder: &str) -> Result<Path, AllocError>
    requires { is_path (folder_path folder.now) ≡ true }
    ensures { IfOk result (λ p. p ≡ folder_path folder.now) }
{
    let text = format!(in alloc; "{DATABASE}/{folder}")?;
    Path::of(alloc, text.as_str())
}

/// The path of a file in it.
pub(crate) fn file_path(alloc: Global, folder: &str, file: RecordFile) -> Result<Path, AllocError>
    requires { HasFilePaths folder.now }
    ensures { IfOk result (λ p. p ≡ file_path folder.now (field_of file)) }
{
    let name = file.name();
    let text = format!(in alloc; "{DATABASE}/{folder}/{name}")?;
    Path::of(alloc, text.as_str())
}
