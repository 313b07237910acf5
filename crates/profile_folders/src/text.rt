ghost use Rattle.std.specs.Prelude.{◌≡◌, IfOk, IsErrOf, IsTrue, MatchOption, None, Some};
ghost use Rattle.file_tree.specs.Disk.{CountsFault};
ghost use Rattle.profile_folders.specs.Places.{path_of};
ghost use Rattle.profile_folders.specs.Texts.{file_in, text_fault, text_of};
ghost use Rattle.profile_folders.specs.declared.fault.ProfileFault.TheVariants.{Text};

use crate::fault::ProfileFault;
use crate::place::path_of;
use config_text::TextFault;
use file_tree::{Kind, Object, Path, Tree, TreeFault};
use std::alloc::{AllocError, Global};

/// The text of the file at the path. A missing file is empty, and a link counts as missing.
pub fn read_text<T: Tree>(alloc: Global, tree: &mut T, path: &Path) -> Result<Vec<u8>, TreeFault>
    ensures text { IsTrue T.tells → IfOk result
        (λ v. v.items ≡ text_of ((T.story tree.old).now.holds path.now)) }
    ensures same { IsTrue T.tells → T.story tree.new ≡ T.story tree.old }
    ensures faults { CountsFault (IsErrOf result TreeFault.Failed) (T.faults tree.old)
        (T.faults tree.new) }
{
    let object = tree.read(path)?;
    Ok(text_of(alloc, object))
}

fn text_of(alloc: Global, object: Option<Object>) -> Vec<u8>
    ensures { result.items ≡ text_of object }
{
    match object {
        Some(Object { kind, bytes }) => match kind {
            Kind::Plain | Kind::Exec => bytes,
            Kind::Link => Vec::new(alloc),
        },
        None => Vec::new(alloc),
    }
}

/// The path of the file of this name in the folder, unless it would be too long.
pub fn file_in(alloc: Global, folder: &Path, name: &str) -> Result<Option<Path>, AllocError>
    ensures { IfOk result (λ r. MatchOption r (path_of (file_in folder.now name.now) ≡ None)
        (λ p. path_of (file_in folder.now name.now) ≡ Some p)) }
{
    let folder = folder.text();
    let text = format!(in alloc; "{folder}/{name}")?;
    path_of(alloc, text.as_str())
}

/// What the fault of a text is called, where the text is that of the file.
pub(crate) fn located(file: &Path, fault: TextFault) -> Result<ProfileFault, AllocError>
    ensures { IfOk result (λ e. e ≡ text_fault file.now fault) }
{
    match fault {
        TextFault::NotUtf8 { line } => text_at(file, line),
        TextFault::BadKey { line } => text_at(file, line),
        TextFault::OpenQuote { line } => text_at(file, line),
        TextFault::Memory => Ok(ProfileFault::Tree(TreeFault::Memory)),
    }
}

fn text_at(file: &Path, line: u32) -> Result<ProfileFault, AllocError>
    ensures { IfOk result (λ e. e ≡ Text file.now line) }
{
    let path = file.try_clone()?;
    Ok(ProfileFault::Text { path, line })
}
