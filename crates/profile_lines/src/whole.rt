ghost use Rattle.std.specs.Prelude.{◌≡◌, ◌↔◌, ◌⊎◌, IfErr, IfOk, IsErrOf, IsTrue, None, OnOk};
ghost use Rattle.file_tree.specs.Disk.{CountsFault};
ghost use Rattle.profile_folders.specs.Folders.{Walks};
ghost use Rattle.profile_folders.specs.Machine.{IsOfMachine};
ghost use Rattle.profile_lines.specs.Faults.{IsMachine, device_failed};
ghost use Rattle.profile_lines.specs.Files.{Content, content, empty};
ghost use Rattle.profile_lines.specs.Profiles.{FirstFault, IsOwnEnd, IsProfile, MissFolders};
ghost use Rattle.profile_lines.specs.Profiles.{MissOpens, MissRest, Opens, ReadsFolders};
ghost use Rattle.profile_lines.specs.Profiles.{repository_masks};

use crate::fault::ReadFault;
use crate::file::{File, count_lines, read_line_file};
use crate::folder::read_folder;
use crate::item::Form;
use crate::profile::Profile;
use file_tree::{Path, Tree};
use profile_folders::{ProfileFault, Walk, find_folders};
use std::alloc::{AllocError, Global};

/// The profile at the path: the masks of the repository, and behind them the folders of the profile
/// in their order, each parent before the profile that names it.
pub fn read<T: Tree>(alloc: Global, tree: &mut T, path: &Path) -> Result<Profile, ReadFault>
    ensures found { IsTrue T.tells → IfOk result (λ p.
        IsProfile (T.story tree.old).now.holds path.now (content p)) }
    ensures only { IsTrue T.tells → (is : Content) →
        IsProfile (T.story tree.old).now.holds path.now is → IfErr result IsMachine }
    ensures fault { IsTrue T.tells → IfErr result (λ e. IsMachine e ⊎
        FirstFault (T.story tree.old).now.holds path.now e) }
    ensures same { IsTrue T.tells → T.story tree.new ≡ T.story tree.old }
    ensures faults { CountsFault (IsErrOf result device_failed) (T.faults tree.old)
        (T.faults tree.new) }
{
    let mut profile = Profile::new(alloc);
    match read_into(alloc, tree, path, &mut profile) {
        Ok(()) => Ok(profile),
        Err(fault) => Err(fault),
    }
}

/// Reads the same into a profile that says nothing yet.
fn read_into<T: Tree>(
    alloc: Global,
    tree: &mut T,
    path: &Path,
    profile: &mut Profile,
) -> Result<(), ReadFault>
    requires empty { content profile.old ≡ empty }
    ensures found { IsTrue T.tells → OnOk result
        (IsProfile (T.story tree.old).now.holds path.now (content profile.new)) }
    ensures fault { IsTrue T.tells → IfErr result (λ e. IsMachine e ⊎
        FirstFault (T.story tree.old).now.holds path.now e) }
    ensures same { IsTrue T.tells → T.story tree.new ≡ T.story tree.old }
    ensures faults { CountsFault (IsErrOf result device_failed) (T.faults tree.old)
        (T.faults tree.new) }
{
    read_masks(alloc, tree, profile)?;
    let course = walk(alloc, tree, path)?;
    read_course(alloc, tree, course, profile)
}

/// Reads the folders of the course, and answers why they aren't all, where they aren't.
fn read_course<T: Tree>(
    alloc: Global,
    tree: &mut T,
    course: Course,
    profile: &mut Profile,
) -> Result<(), ReadFault>
    requires own { IsOwnEnd course.end }
    ensures found { IsTrue T.tells → OnOk result ((course.end ≡ None) × ReadsFolders
        (T.story tree.old).now.holds course.folders.items (content profile.old)
        (content profile.new)) }
    ensures fault { IsTrue T.tells → IfErr result (λ e. IsMachine e ⊎ MissRest
        (T.story tree.old).now.holds course.folders.items course.end (content profile.old) e) }
    ensures same { IsTrue T.tells → T.story tree.new ≡ T.story tree.old }
    ensures faults { CountsFault (IsErrOf result device_failed) (T.faults tree.old)
        (T.faults tree.new) }
{
    let Course { folders, end } = course;
    read_folders(alloc, tree, &folders, profile)?;
    match end {
        None => Ok(()),
        Some(fault) => Err(ReadFault::Profile(fault)),
    }
}

/// Reads the masks of the repository into a profile that says nothing yet.
fn read_masks<T: Tree>(alloc: Global, tree: &mut T, profile: &mut Profile) -> Result<(), ReadFault>
    requires empty { content profile.old ≡ empty }
    ensures found { IsTrue T.tells → OnOk result
        (Opens (T.story tree.old).now.holds (content profile.new)) }
    ensures fault { IsTrue T.tells → IfErr result (λ e. IsMachine e ⊎
        MissOpens (T.story tree.old).now.holds e) }
    ensures same { IsTrue T.tells → T.story tree.new ≡ T.story tree.old }
    ensures faults { CountsFault (IsErrOf result device_failed) (T.faults tree.old)
        (T.faults tree.new) }
{
    let path = path_of_masks(alloc)?;
    let lines = read_line_file(alloc, tree, &path, Form::Masks)?;
    count_lines(profile, File::Masks, lines)?;
    Ok(())
}

#[tactic(auto, unfolding(file_tree::specs::Paths::is_path))]
fn path_of_masks(alloc: Global) -> Result<Path, AllocError>
    ensures { IfOk result (λ p. p ≡ repository_masks) }
{
    Path::of(alloc, "var/db/repos/gentoo/profiles/package.mask")
}

/// The folders of a profile that were read to their end, and why they aren't all of them.
#[derive(Drop)]
struct Course {
    folders: Vec<Path>,
    end: Option<ProfileFault>,
}

/// Walks over the folders of the profile. Where the machine fails nothing is told of them.
fn walk<T: Tree>(alloc: Global, tree: &mut T, path: &Path) -> Result<Course, ReadFault>
    ensures found { IsTrue T.tells → IfOk result (λ c.
        Walks (T.story tree.old).now.holds path.now c.folders.items c.end) }
    ensures own { IfOk result (λ c. IsOwnEnd c.end) }
    ensures fault { IfErr result IsMachine }
    ensures same { IsTrue T.tells → T.story tree.new ≡ T.story tree.old }
    ensures faults { CountsFault (IsErrOf result device_failed) (T.faults tree.old)
        (T.faults tree.new) }
{
    let Walk { folders, end } = find_folders(alloc, tree, path);
    match end {
        Ok(()) => Ok(Course { folders, end: None }),
        Err(fault) if is_of_machine(&fault) => Err(ReadFault::Profile(fault)),
        Err(fault) => Ok(Course {
            folders,
            end: Some(fault),
        }),
    }
}

/// Whether the machine failed, whatever the tree holds.
fn is_of_machine(fault: &ProfileFault) -> bool
    ensures { IsTrue result ↔ IsOfMachine fault.now }
{
    matches!(fault, ProfileFault::Tree(_))
}

/// Reads the folders one after the other, behind what the profile says.
fn read_folders<T: Tree>(
    alloc: Global,
    tree: &mut T,
    folders: &[Path],
    profile: &mut Profile,
) -> Result<(), ReadFault>
    ensures found { IsTrue T.tells → OnOk result (ReadsFolders (T.story tree.old).now.holds
        folders.now (content profile.old) (content profile.new)) }
    ensures fault { IsTrue T.tells → IfErr result (λ e. IsMachine e ⊎ MissFolders
        (T.story tree.old).now.holds folders.now (content profile.old) e) }
    ensures same { IsTrue T.tells → T.story tree.new ≡ T.story tree.old }
    ensures faults { CountsFault (IsErrOf result device_failed) (T.faults tree.old)
        (T.faults tree.new) }
{
    for folder in folders {
        read_folder(alloc, tree, folder, profile)?;
    }
    Ok(())
}
