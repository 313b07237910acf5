ghost use Rattle.std.specs.Prelude.{◌≡◌, ◌⊎◌, ◌++◌, ◌∷◌, [], List, IfErr, IfOk, IsErrOf, IsTrue};
ghost use Rattle.std.specs.Prelude.{MatchResult, OnOk, filter};
ghost use Rattle.std.specs.List.{list_any};
ghost use Rattle.file_tree.specs.Disk.{CountsFault};
ghost use Rattle.profile_folders.specs.LineFiles.{AreFiles, AreFilesIn, AreLines, HasBadByte};
ghost use Rattle.profile_folders.specs.LineFiles.{HasText, IsLinesFault, is_file_in, is_hidden};
ghost use Rattle.profile_folders.specs.LineFiles.{is_shown, lines_of};
ghost use Rattle.profile_folders.specs.Machine.{IsOfMachine};
ghost use Rattle.profile_folders.specs.Places.{is_slash};
ghost use Rattle.profile_folders.specs.declared.line_file.FileLine.{FileLine as FileLineValue};

use crate::fault::ProfileFault;
use crate::text::{located, read_text};
use basics::Text;
use config_text::lines;
use file_tree::{Look, Path, Tree, TreeFault};
use std::alloc::{AllocError, Global};

/// A line of a line file.
#[derive(Debug, Drop)]
pub struct FileLine {
    /// The file in which the line stands.
    pub file: Path,
    /// Counts from 1, and stays at `u32::MAX` behind it.
    pub number: u32,
    pub text: Text,
}

/// The lines that count at the path: those of the file there, or of the files in the folder there,
/// in byte order of their names. A missing file has none.
pub fn read_lines<T: Tree>(
    alloc: Global,
    tree: &mut T,
    path: &Path,
) -> Result<Vec<FileLine>, ProfileFault>
    ensures found { IsTrue T.tells → IfOk result
        (λ v. AreLines (T.story tree.old).now.holds path.now v.items) }
    ensures only { IsTrue T.tells → (these : List FileLineValue) →
        AreLines (T.story tree.old).now.holds path.now these →
        MatchResult result (λ v. v.items ≡ these) IsOfMachine }
    ensures fault { IsTrue T.tells → IfErr result
        (λ e. IsOfMachine e ⊎ IsLinesFault (T.story tree.old).now.holds path.now e) }
    ensures same { IsTrue T.tells → T.story tree.new ≡ T.story tree.old }
    ensures faults { CountsFault (IsErrOf result (ProfileFault.Tree TreeFault.Failed))
        (T.faults tree.old) (T.faults tree.new) }
{
    let files = files_at(alloc, tree, path)?;
    let mut all = Vec::new(alloc);
    for file in &files {
        add_lines(alloc, tree, file, &mut all)?;
    }
    Ok(all)
}

/// The files whose lines count at the path.
fn files_at<T: Tree>(alloc: Global, tree: &mut T, path: &Path) -> Result<Vec<Path>, TreeFault>
    ensures found { IsTrue T.tells → IfOk result
        (λ v. AreFiles (T.story tree.old).now.holds path.now v.items) }
    ensures same { IsTrue T.tells → T.story tree.new ≡ T.story tree.old }
    ensures faults { CountsFault (IsErrOf result TreeFault.Failed) (T.faults tree.old)
        (T.faults tree.new) }
{
    match tree.look(path)? {
        Look::Item(_) => Ok(only_file(alloc, path)?),
        Look::Nothing | Look::Folder => files_in(alloc, tree, path),
    }
}

fn only_file(alloc: Global, path: &Path) -> Result<Vec<Path>, AllocError>
    ensures { IfOk result (λ v. v.items ≡ path.now ∷ []) }
{
    let mut files = Vec::new(alloc);
    files.push(path.try_clone()?)?;
    Ok(files)
}

/// The files of the folder that count.
fn files_in<T: Tree>(alloc: Global, tree: &mut T, folder: &Path) -> Result<Vec<Path>, TreeFault>
    ensures found { IsTrue T.tells → IfOk result
        (λ v. AreFilesIn (T.story tree.old).now.holds folder.now v.items) }
    ensures same { IsTrue T.tells → T.story tree.new ≡ T.story tree.old }
    ensures faults { CountsFault (IsErrOf result TreeFault.Failed) (T.faults tree.old)
        (T.faults tree.new) }
{
    let below = tree.list(folder)?;
    Ok(files_among(alloc, folder, &below)?)
}

/// The paths of these that are files of the folder.
fn files_among(alloc: Global, folder: &Path, paths: &[Path]) -> Result<Vec<Path>, AllocError>
    ensures { IfOk result (λ v. v.items ≡ filter (is_file_in folder.now) paths.now) }
{
    let mut files = Vec::new(alloc);
    for path in paths {
        if is_file_in(folder, path) {
            files.push(path.try_clone()?)?;
        }
    }
    Ok(files)
}

fn is_file_in(folder: &Path, path: &Path) -> bool
    ensures { result ≡ is_file_in folder.now path.now }
{
    if !folder.is_above(path) {
        return false;
    }
    let (_, name) = path.text().as_bytes().split_at(folder.text().len() + 1);
    is_shown(name)
}

fn is_shown(name: &[u8]) -> bool
    ensures { result ≡ is_shown name.now }
{
    !is_hidden(name) && !has_slash(name)
}

fn has_slash(name: &[u8]) -> bool
    ensures { result ≡ list_any is_slash name.now }
{
    name.iter().any(|b| *b == b'/')
}

fn is_hidden(name: &[u8]) -> bool
    ensures { result ≡ is_hidden name.now }
{
    match name {
        [first, ..] => *first == b'.',
        [] => false,
    }
}

/// Puts the lines of the file that count behind the others.
fn add_lines<T: Tree>(
    alloc: Global,
    tree: &mut T,
    file: &Path,
    all: &mut Vec<FileLine>,
) -> Result<(), ProfileFault>
    ensures text { IsTrue T.tells → OnOk result
        (HasText (T.story tree.old).now.holds file.now) }
    ensures added { IsTrue T.tells → OnOk result (all.new.items
        ≡ all.old.items ++ lines_of (T.story tree.old).now.holds file.now) }
    ensures fault { IsTrue T.tells → IfErr result
        (λ e. IsOfMachine e ⊎ HasBadByte (T.story tree.old).now.holds file.now e) }
    ensures same { IsTrue T.tells → T.story tree.new ≡ T.story tree.old }
    ensures faults { CountsFault (IsErrOf result (ProfileFault.Tree TreeFault.Failed))
        (T.faults tree.old) (T.faults tree.new) }
{
    let bytes = read_text(alloc, tree, file)?;
    let lines = match lines(alloc, &bytes) {
        Ok(lines) => lines,
        Err(fault) => return Err(located(file, fault)?),
    };
    for line in &lines {
        all.push(FileLine {
            file: file.try_clone()?,
            number: line.number,
            text: line.text.try_clone()?,
        })?;
    }
    Ok(())
}
