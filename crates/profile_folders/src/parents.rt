ghost use Rattle.std.specs.Prelude.{◌≡◌, ◌⊎◌, IfErr, IfOk, IsErrOf, IsTrue, MatchOption};
ghost use Rattle.profile_folders.specs.declared.parents.Parent.{Parent as ParentValue};
ghost use Rattle.file_tree.specs.Disk.{CountsFault};
ghost use Rattle.profile_folders.specs.Machine.{IsOfMachine};
ghost use Rattle.profile_folders.specs.Parents.{AreNamed, AreParents, IsMisnamed, IsParentFault};
ghost use Rattle.profile_folders.specs.Parents.{LeadsTo, parent_file};

use crate::fault::ProfileFault;
use crate::place::place_from;
use crate::text::{file_in, located, read_text};
use config_text::{Line, lines};
use file_tree::{Path, Tree, TreeFault};
use std::alloc::{AllocError, Global};

/// A line of a file `parent`, and the folder to which it leads.
#[derive(Debug, Drop)]
pub struct Parent {
    pub file: Path,
    pub line: u32,
    pub folder: Path,
}

/// The parents that the profile in the folder names.
pub(crate) fn read_parents<T: Tree>(
    alloc: Global,
    tree: &mut T,
    folder: &Path,
) -> Result<Vec<Parent>, ProfileFault>
    ensures found { IsTrue T.tells → IfOk result
        (λ v. AreParents (T.story tree.old).now.holds folder.now v.items) }
    ensures fault { IsTrue T.tells → IfErr result
        (λ e. IsOfMachine e ⊎ IsParentFault (T.story tree.old).now.holds folder.now e) }
    ensures same { IsTrue T.tells → T.story tree.new ≡ T.story tree.old }
    ensures faults { CountsFault (IsErrOf result (ProfileFault.Tree TreeFault.Failed))
        (T.faults tree.old) (T.faults tree.new) }
{
    let Some(file) = file_in(alloc, folder, "parent")? else {
        return Ok(Vec::new(alloc));
    };
    let bytes = read_text(alloc, tree, &file)?;
    parents_in(alloc, folder, &file, &bytes)
}

/// The parents that the file with these bytes names.
fn parents_in(
    alloc: Global,
    folder: &Path,
    file: &Path,
    bytes: &[u8],
) -> Result<Vec<Parent>, ProfileFault>
    requires file { file.now ≡ parent_file folder.now }
    ensures found { IfOk result (λ v. AreNamed folder.now bytes.now v.items) }
    ensures fault { IfErr result
        (λ e. (e ≡ ProfileFault.Tree TreeFault.Memory) ⊎ IsMisnamed folder.now bytes.now e) }
{
    let lines = match lines(alloc, bytes) {
        Ok(lines) => lines,
        Err(fault) => return Err(located(file, fault)?),
    };
    let mut parents = Vec::new(alloc);
    for line in &lines {
        match parent_at(alloc, folder, file, line)? {
            Some(parent) => parents.push(parent)?,
            None => {
                return Err(ProfileFault::Text {
                    path: file.try_clone()?,
                    line: line.number,
                });
            }
        }
    }
    Ok(parents)
}

/// The parent to which the line leads, if it leads to one.
fn parent_at(
    alloc: Global,
    folder: &Path,
    file: &Path,
    line: &Line,
) -> Result<Option<Parent>, AllocError>
    requires file { file.now ≡ parent_file folder.now }
    ensures { IfOk result (λ r. MatchOption r
        ((p : ParentValue) → ¬ LeadsTo folder.now line.now p) (LeadsTo folder.now line.now)) }
{
    let text = line.text.as_str().trim_ascii();
    let Some(target) = place_from(alloc, folder, text)? else {
        return Ok(None);
    };
    Ok(Some(Parent {
        file: file.try_clone()?,
        line: line.number,
        folder: target,
    }))
}
