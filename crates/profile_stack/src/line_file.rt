ghost use Rattle.std.specs.Prelude.{◌≡◌, ◌⊎◌, IfErr, IfOk, IsErrOf, IsTrue, OnOk, true};
ghost use Rattle.file_tree.specs.Disk.{CountsFault};
ghost use Rattle.file_tree.specs.Paths.{is_path};
ghost use Rattle.profile_lines.specs.Faults.{IsMachine, device_failed};
ghost use Rattle.profile_stack.specs.Files.{MissFile, MissFiles, ReadsFile, ReadsFiles, configured};
ghost use Rattle.profile_stack.specs.Files.{counted, form_of, path_of, user_files};

use crate::taken::keep_others;
use crate::user_config::UserConfig;
use file_tree::{Path, Tree};
use profile_lines::{Entry, Form, ReadFault, count_entries, read_line_file};
use std::alloc::{AllocError, Global};

/// A line file of the user's.
#[derive(Clone, Copy, Debug)]
pub enum UserFile {
    /// `package.use`
    Uses,
    /// `package.mask`
    Masks,
    /// `package.unmask`
    Unmasks,
    /// `package.accept_keywords`
    Keywords,
}

/// The line files in the order in which they are read.
const USER_FILES: [UserFile; 4] = [
    UserFile::Uses,
    UserFile::Masks,
    UserFile::Unmasks,
    UserFile::Keywords,
];

/// Reads the user's line files, behind what is configured.
pub(crate) fn read_line_files<T: Tree>(
    alloc: Global,
    tree: &mut T,
    config: &mut UserConfig,
) -> Result<(), ReadFault>
    ensures found { IsTrue T.tells → OnOk result (ReadsFiles (T.story tree.old).now.holds
        (configured config.old) (configured config.new)) }
    ensures fault { IsTrue T.tells → IfErr result (λ e. IsMachine e ⊎ MissFiles
        (T.story tree.old).now.holds (configured config.old) e) }
    ensures same { IsTrue T.tells → T.story tree.new ≡ T.story tree.old }
    ensures faults { CountsFault (IsErrOf result device_failed) (T.faults tree.old)
        (T.faults tree.new) }
{
    for file in &USER_FILES {
        read_one(alloc, tree, *file, config)?;
    }
    Ok(())
}

/// Reads one of them.
fn read_one<T: Tree>(
    alloc: Global,
    tree: &mut T,
    file: UserFile,
    config: &mut UserConfig,
) -> Result<(), ReadFault>
    ensures found { IsTrue T.tells → OnOk result (ReadsFile (T.story tree.old).now.holds file
        (configured config.old) (configured config.new)) }
    ensures fault { IsTrue T.tells → IfErr result (λ e. IsMachine e ⊎ MissFile
        (T.story tree.old).now.holds file (configured config.old) e) }
    ensures same { IsTrue T.tells → T.story tree.new ≡ T.story tree.old }
    ensures faults { CountsFault (IsErrOf result device_failed) (T.faults tree.old)
        (T.faults tree.new) }
{
    let path = path_of(alloc, file)?;
    let lines = read_line_file(alloc, tree, &path, form_of(file))?;
    count_lines(config, file, lines)?;
    Ok(())
}

/// Counts the lines of the file in what is configured.
fn count_lines(config: &mut UserConfig, file: UserFile, lines: Vec<Entry>) -> Result<(), AllocError>
    ensures { OnOk result (configured config.new ≡
        counted file (configured config.old) lines.items) }
{
    let form = form_of(file);
    match file {
        UserFile::Uses => {
            keep_others(&mut config.profile_uses, &lines);
            count_entries(form, &mut config.uses, lines)
        }
        UserFile::Masks => count_entries(form, &mut config.masks, lines),
        UserFile::Unmasks => count_entries(form, &mut config.unmasks, lines),
        UserFile::Keywords => count_entries(form, &mut config.keywords, lines),
    }
}

fn path_of(alloc: Global, file: UserFile) -> Result<Path, AllocError>
    ensures { IfOk result (λ p. p ≡ path_of file) }
{
    Path::of(alloc, path_text(file))
}

#[tactic(auto, unfolding(file_tree::specs::Paths::is_path))]
fn path_text(file: UserFile) -> &'static str
    ensures text { result.now ≡ path_of file }
    ensures form { is_path result.now ≡ true }
{
    match file {
        UserFile::Uses => "etc/portage/package.use",
        UserFile::Masks => "etc/portage/package.mask",
        UserFile::Unmasks => "etc/portage/package.unmask",
        UserFile::Keywords => "etc/portage/package.accept_keywords",
    }
}

/// What the lines of the file are.
fn form_of(file: UserFile) -> Form
    ensures { result ≡ form_of file }
{
    match file {
        UserFile::Uses => Form::Rules,
        UserFile::Masks | UserFile::Unmasks => Form::Masks,
        UserFile::Keywords => Form::Keywords,
    }
}
