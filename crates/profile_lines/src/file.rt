ghost use Rattle.std.specs.Prelude.{◌≡◌, ◌⊎◌, IfErr, IfOk, IsErrOf, IsTrue, OnOk, Some};
ghost use Rattle.file_tree.specs.Disk.{CountsFault};
ghost use Rattle.profile_lines.specs.Faults.{IsMachine, device_failed};
ghost use Rattle.profile_lines.specs.Files.{MissTells, Tells, content, counted, file_name, form_of};
ghost use Rattle.profile_lines.specs.Files.{line_files, path_in};

use crate::entries::read_entries;
use crate::fault::ReadFault;
use crate::item::{Entry, Form};
use crate::profile::Profile;
use crate::stack::count_entries;
use file_tree::{Path, Tree};
use profile_folders::{file_in, read_lines};
use std::alloc::{AllocError, Global};

/// A line file of a profile.
#[derive(Clone, Copy, Debug)]
pub enum File {
    /// `package.mask`
    Masks,
    /// `package.use`
    Uses,
    /// `use.mask`
    FlagMasks,
    /// `use.force`
    FlagForces,
    /// `package.use.mask`
    RuleMasks,
    /// `package.use.force`
    RuleForces,
}

/// The line files in the order in which those of a folder are read.
pub(crate) const LINE_FILES: [File; 6] = [
    File::Masks,
    File::Uses,
    File::FlagMasks,
    File::FlagForces,
    File::RuleMasks,
    File::RuleForces,
];

/// What the line file of the folder says, line by line.
pub(crate) fn read_file<T: Tree>(
    alloc: Global,
    tree: &mut T,
    folder: &Path,
    file: File,
) -> Result<Vec<Entry>, ReadFault>
    ensures found { IsTrue T.tells → IfOk result (λ v.
        Tells (T.story tree.old).now.holds (form_of file) (path_in folder.now file) v.items) }
    ensures fault { IsTrue T.tells → IfErr result (λ e. IsMachine e ⊎
        MissTells (T.story tree.old).now.holds (form_of file) (path_in folder.now file) e) }
    ensures same { IsTrue T.tells → T.story tree.new ≡ T.story tree.old }
    ensures faults { CountsFault (IsErrOf result device_failed) (T.faults tree.old)
        (T.faults tree.new) }
{
    match file_in(alloc, folder, file_name(file))? {
        Some(path) => read_line_file(alloc, tree, &path, form_of(file)),
        None => Ok(Vec::new(alloc)),
    }
}

/// What the line file at the path says, line by line. A missing file says nothing.
pub fn read_line_file<T: Tree>(
    alloc: Global,
    tree: &mut T,
    path: &Path,
    form: Form,
) -> Result<Vec<Entry>, ReadFault>
    ensures found { IsTrue T.tells → IfOk result (λ v.
        Tells (T.story tree.old).now.holds form (Some path.now) v.items) }
    ensures fault { IsTrue T.tells → IfErr result (λ e. IsMachine e ⊎
        MissTells (T.story tree.old).now.holds form (Some path.now) e) }
    ensures same { IsTrue T.tells → T.story tree.new ≡ T.story tree.old }
    ensures faults { CountsFault (IsErrOf result device_failed) (T.faults tree.old)
        (T.faults tree.new) }
{
    let lines = read_lines(alloc, tree, path)?;
    read_entries(alloc, form, &lines)
}

/// Counts the lines of the file in the profile.
pub(crate) fn count_lines(
    profile: &mut Profile,
    file: File,
    lines: Vec<Entry>,
) -> Result<(), AllocError>
    ensures { OnOk result (content profile.new ≡
        counted file (content profile.old) lines.items) }
{
    let form = form_of(file);
    match file {
        File::Masks => count_entries(form, &mut profile.masks, lines),
        File::Uses => count_entries(form, &mut profile.uses, lines),
        File::FlagMasks | File::RuleMasks => count_entries(form, &mut profile.hides, lines),
        File::FlagForces | File::RuleForces => count_entries(form, &mut profile.forces, lines),
    }
}

fn file_name(file: File) -> &'static str
    ensures { result.now ≡ file_name file }
{
    match file {
        File::Masks => "package.mask",
        File::Uses => "package.use",
        File::FlagMasks => "use.mask",
        File::FlagForces => "use.force",
        File::RuleMasks => "package.use.mask",
        File::RuleForces => "package.use.force",
    }
}

/// What the lines of the file are.
fn form_of(file: File) -> Form
    ensures { result ≡ form_of file }
{
    match file {
        File::Masks => Form::Masks,
        File::Uses | File::RuleMasks | File::RuleForces => Form::Rules,
        File::FlagMasks | File::FlagForces => Form::Flags,
    }
}
