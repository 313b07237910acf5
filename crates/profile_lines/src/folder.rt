ghost use Rattle.std.specs.Prelude.{◌≡◌, ◌⊎◌, ◌++◌, IfErr, IsErrOf, IsTrue, OnOk, length};
ghost use Rattle.file_tree.specs.Disk.{CountsFault};
ghost use Rattle.profile_lines.specs.Faults.{IsMachine, device_failed};
ghost use Rattle.profile_lines.specs.Files.{MissFile, MissFiles, MissFolder, ReadsFile, ReadsFiles};
ghost use Rattle.profile_lines.specs.Files.{ReadsFolder, content, defaults_file, defaults_path};

use crate::fault::ReadFault;
use crate::file::{File, LINE_FILES, count_lines, read_file};
use crate::profile::{DefaultsFile, Profile};
use config_text::Assignment;
use file_tree::{Path, Tree};
use profile_folders::{file_in, read_defaults};
use std::alloc::{AllocError, Global};

/// Reads the variables and the line files of the folder, behind what the profile says.
pub fn read_folder<T: Tree>(
    alloc: Global,
    tree: &mut T,
    folder: &Path,
    profile: &mut Profile,
) -> Result<(), ReadFault>
    ensures found { IsTrue T.tells → OnOk result (ReadsFolder (T.story tree.old).now.holds
        folder.now (content profile.old) (content profile.new)) }
    ensures fault { IsTrue T.tells → IfErr result (λ e. IsMachine e ⊎ MissFolder
        (T.story tree.old).now.holds folder.now (content profile.old) e) }
    ensures same { IsTrue T.tells → T.story tree.new ≡ T.story tree.old }
    ensures faults { CountsFault (IsErrOf result device_failed) (T.faults tree.old)
        (T.faults tree.new) }
{
    let mut set = read_defaults(alloc, tree, folder, &profile.assigned)?;
    note_file(alloc, folder, &set, &mut profile.files)?;
    profile.assigned.append(&mut set)?;
    read_line_files(alloc, tree, folder, profile)
}

/// Notes the folder's file with these assignments. Where its path would be too long there is none.
fn note_file(
    alloc: Global,
    folder: &Path,
    set: &[Assignment],
    files: &mut Vec<DefaultsFile>,
) -> Result<(), AllocError>
    ensures { OnOk result (files.new.items ≡
        files.old.items ++ defaults_file (defaults_path folder.now) (length set.now)) }
{
    match file_in(alloc, folder, "make.defaults")? {
        Some(path) => {
            let count = set.len();
            files.push(DefaultsFile { path, count })?;
            Ok(())
        }
        None => Ok(()),
    }
}

/// Reads the line files of the folder.
fn read_line_files<T: Tree>(
    alloc: Global,
    tree: &mut T,
    folder: &Path,
    profile: &mut Profile,
) -> Result<(), ReadFault>
    ensures found { IsTrue T.tells → OnOk result (ReadsFiles (T.story tree.old).now.holds
        folder.now (content profile.old) (content profile.new)) }
    ensures fault { IsTrue T.tells → IfErr result (λ e. IsMachine e ⊎ MissFiles
        (T.story tree.old).now.holds folder.now (content profile.old) e) }
    ensures same { IsTrue T.tells → T.story tree.new ≡ T.story tree.old }
    ensures faults { CountsFault (IsErrOf result device_failed) (T.faults tree.old)
        (T.faults tree.new) }
{
    for file in &LINE_FILES {
        read_one(alloc, tree, folder, *file, profile)?;
    }
    Ok(())
}

/// Reads one line file of the folder.
fn read_one<T: Tree>(
    alloc: Global,
    tree: &mut T,
    folder: &Path,
    file: File,
    profile: &mut Profile,
) -> Result<(), ReadFault>
    ensures found { IsTrue T.tells → OnOk result (ReadsFile (T.story tree.old).now.holds
        folder.now file (content profile.old) (content profile.new)) }
    ensures fault { IsTrue T.tells → IfErr result (λ e. IsMachine e ⊎ MissFile
        (T.story tree.old).now.holds folder.now file (content profile.old) e) }
    ensures same { IsTrue T.tells → T.story tree.new ≡ T.story tree.old }
    ensures faults { CountsFault (IsErrOf result device_failed) (T.faults tree.old)
        (T.faults tree.new) }
{
    let lines = read_file(alloc, tree, folder, file)?;
    count_lines(profile, file, lines)?;
    Ok(())
}
