ghost use Rattle.std.specs.Prelude.{◌≡◌, ◌⊎◌, ◌↔◌, IfErr, IfOk, IsErr, IsErrOf, IsTrue};
ghost use Rattle.std.specs.Prelude.{MatchOption, None};
ghost use Rattle.std.specs.Str.{IsUtf8};
ghost use Rattle.file_tree.specs.Disk.{CountsFault};
ghost use Rattle.profile_folders.specs.Begins.{BeginsAt, BeginsNowhere, IsBadTarget, IsFolder};
ghost use Rattle.profile_folders.specs.Begins.{IsTarget, Starts, StartsNowhere};
ghost use Rattle.profile_folders.specs.Machine.{IsOfMachine};
ghost use Rattle.profile_folders.specs.Places.{link_place};

use crate::fault::ProfileFault;
use crate::place::link_place;
use config_text::text_of;
use file_tree::{Failed, Kind, Look, Object, Path, Tree, TreeFault};
use std::alloc::{AllocError, Global};

/// The folder of the profile at the path, which may be a link to it.
pub(crate) fn find_start<T: Tree>(
    alloc: Global,
    tree: &mut T,
    path: &Path,
) -> Result<Path, ProfileFault>
    ensures begins { IsTrue T.tells → IfOk result
        (BeginsAt (T.story tree.old).now.holds path.now) }
    ensures fault { IsTrue T.tells → IfErr result (λ e. IsOfMachine e ⊎
        BeginsNowhere (T.story tree.old).now.holds path.now e) }
    ensures same { IsTrue T.tells → T.story tree.new ≡ T.story tree.old }
    ensures faults { CountsFault (IsErrOf result (ProfileFault.Tree TreeFault.Failed))
        (T.faults tree.old) (T.faults tree.new) }
{
    let object = tree.read(path)?;
    let folder = start_of(alloc, path, object)?;
    if !is_folder(tree, &folder)? {
        return Err(ProfileFault::Missing { path: folder });
    }
    Ok(folder)
}

/// The folder at which the profile begins, where the path holds this.
fn start_of(alloc: Global, path: &Path, object: Option<Object>) -> Result<Path, ProfileFault>
    ensures starts { IfOk result (Starts object path.now) }
    ensures fault { IfErr result
        (λ e. (e ≡ ProfileFault.Tree TreeFault.Memory) ⊎ StartsNowhere object path.now e) }
{
    match object {
        None => Ok(path.try_clone()?),
        Some(Object { kind, bytes }) => match kind {
            Kind::Link => target(alloc, path, &bytes),
            Kind::Plain | Kind::Exec => Err(ProfileFault::Missing {
                path: path.try_clone()?,
            }),
        },
    }
}

/// The path to which a link at the path with this target leads.
fn target(alloc: Global, path: &Path, target: &[u8]) -> Result<Path, ProfileFault>
    ensures found { IfOk result (IsTarget path.now target.now) }
    ensures fault { IfErr result
        (λ e. (e ≡ ProfileFault.Tree TreeFault.Memory) ⊎ IsBadTarget path.now target.now e) }
{
    match place_of(alloc, path, target)? {
        Some(place) => Ok(place),
        None => Err(ProfileFault::Text {
            path: path.try_clone()?,
            line: 1,
        }),
    }
}

/// The same, if the link leads to a path.
fn place_of(alloc: Global, path: &Path, target: &[u8]) -> Result<Option<Path>, AllocError>
    ensures { IfOk result (λ r. MatchOption r
        (IsUtf8 target.now → link_place path.now target.now ≡ None)
        (IsTarget path.now target.now)) }
{
    match text_of(target) {
        Ok(text) => link_place(alloc, path, text),
        Err(_) => Ok(None),
    }
}

/// Whether something stands below the path, and nothing at it.
pub(crate) fn is_folder<T: Tree>(tree: &mut T, path: &Path) -> Result<bool, Failed>
    ensures answer { IsTrue T.tells → IfOk result
        (λ b. IsTrue b ↔ IsFolder (T.story tree.old).now.holds path.now) }
    ensures same { IsTrue T.tells → T.story tree.new ≡ T.story tree.old }
    ensures faults { CountsFault (IsErr result) (T.faults tree.old) (T.faults tree.new) }
{
    match tree.look(path)? {
        Look::Folder => Ok(true),
        Look::Nothing | Look::Item(_) => Ok(false),
    }
}
