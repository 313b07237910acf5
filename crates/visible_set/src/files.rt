ghost use Rattle.std.specs.Prelude.{◌≡◌, ◌++◌, ◌∷◌, [], IfOk, OnOk, map};
ghost use Rattle.profile_stack.specs.Files.{configured, make_conf};
ghost use Rattle.visible_set.specs.Configured.{file_at, file_value, files_of, parted};

use config_text::Assignment;
use config_vars::FileVars;
use file_tree::Path;
use profile_lines::DefaultsFile;
use profile_stack::{MAKE_CONF, UserConfig};
use std::alloc::{AllocError, Global};

/// The files that set variables, in the order in which they are read.
pub(crate) fn files_of(alloc: Global, config: &UserConfig) -> Result<Vec<FileVars>, AllocError>
    ensures { IfOk result (λ v. map file_value v.items ≡ files_of (configured config.now)) }
{
    let mut files = parted(alloc, &config.files, &config.defaults)?;
    add_file(
        &mut files,
        path_of_conf(alloc)?,
        copies(alloc, &config.conf)?,
    )?;
    Ok(files)
}

/// The assignments, parted among the files.
fn parted(
    alloc: Global,
    files: &[DefaultsFile],
    assigned: &[Assignment],
) -> Result<Vec<FileVars>, AllocError>
    ensures { IfOk result (λ v. map file_value v.items ≡ parted files.now assigned.now) }
{
    let mut found = Vec::new(alloc);
    let mut rest = assigned;
    for file in files {
        let (own, behind) = rest.split_at(file.count.min(rest.len()));
        add_file(&mut found, file.path.try_clone()?, copies(alloc, own)?)?;
        rest = behind;
    }
    Ok(found)
}

fn add_file(
    files: &mut Vec<FileVars>,
    path: Path,
    assigned: Vec<Assignment>,
) -> Result<(), AllocError>
    ensures { OnOk result (map file_value files.new.items ≡ map file_value files.old.items
        ++ file_at path assigned.items ∷ []) }
{
    files.push(FileVars { path, assigned })?;
    Ok(())
}

fn copies(alloc: Global, assigned: &[Assignment]) -> Result<Vec<Assignment>, AllocError>
    ensures { IfOk result (λ v. v.items ≡ assigned.now) }
{
    let mut copies = Vec::new(alloc);
    for assignment in assigned {
        copies.push(copy_of(assignment)?)?;
    }
    Ok(copies)
}

fn copy_of(assignment: &Assignment) -> Result<Assignment, AllocError>
    ensures { IfOk result (λ a. a ≡ assignment.now) }
{
    Ok(Assignment {
        line: assignment.line,
        key: assignment.key.try_clone()?,
        value: assignment.value.try_clone()?,
    })
}

#[tactic(auto, unfolding(file_tree::specs::Paths::is_path))]
fn path_of_conf(alloc: Global) -> Result<Path, AllocError>
    ensures { IfOk result (λ p. p ≡ make_conf) }
{
    Path::of(alloc, MAKE_CONF)
}
