ghost use Rattle.std.specs.Prelude.{◌≡◌, ◌↔◌, ◌⊎◌, ◌<◌, ◌≤◌, ◌+◌, [], ℕ, List, None, Some, IfErr};
ghost use Rattle.std.specs.Prelude.{IsErrOf, IsTrue, MatchResult, OnOk, length};
ghost use Rattle.basics.specs.Members.{Has};
ghost use Rattle.file_tree.specs.Disk.{CountsFault};
ghost use Rattle.profile_folders.specs.Folders.{AreFolders, FirstFault, MayNotRead, MayRead, Reads};
ghost use Rattle.profile_folders.specs.Folders.{most_profiles};
ghost use Rattle.profile_folders.specs.Machine.{IsOfMachine};

use crate::fault::ProfileFault;
use crate::parents::{Parent, read_parents};
use crate::start::{find_start, is_folder};
use file_tree::{Path, Tree, TreeFault};
use std::alloc::Global;

/// So many profiles are read at most, each as often as it is named.
pub const MOST_PROFILES: usize = 64;

/// The folders of a profile, as far as they are read.
#[derive(Debug, Drop)]
pub struct Walk {
    /// The folders of the profiles that were read to their end, in this order.
    pub folders: Vec<Path>,
    /// Why the folders aren't all of them.
    pub end: Result<(), ProfileFault>,
}

/// The folders of the profile at the path, each parent before the profile that names it. Beside a
/// fault stand the folders whose profiles come before it, since their files are read before it.
pub fn find_folders<T: Tree>(alloc: Global, tree: &mut T, path: &Path) -> Walk
    ensures found { IsTrue T.tells → OnOk result.end
        (AreFolders (T.story tree.old).now.holds path.now result.folders.items) }
    ensures only { IsTrue T.tells → (folders : List (List ℕ)) →
        AreFolders (T.story tree.old).now.holds path.now folders →
        MatchResult result.end (λ _. result.folders.items ≡ folders) IsOfMachine }
    ensures fault { IsTrue T.tells → IfErr result.end (λ e. IsOfMachine e ⊎
        FirstFault (T.story tree.old).now.holds path.now result.folders.items e) }
    ensures same { IsTrue T.tells → T.story tree.new ≡ T.story tree.old }
    ensures faults { CountsFault (IsErrOf result.end (ProfileFault.Tree TreeFault.Failed))
        (T.faults tree.old) (T.faults tree.new) }
{
    let mut course = Course {
        above: Vec::new(alloc),
        folders: Vec::new(alloc),
    };
    let end = read_all(alloc, tree, path, &mut course);
    Walk {
        folders: course.folders,
        end,
    }
}

/// Where the reading of profiles is.
#[derive(Drop)]
struct Course {
    /// The folders whose profiles are being read, each parent behind the profile that names it.
    above: Vec<Path>,
    /// The folders whose profiles were read to their end.
    folders: Vec<Path>,
}

fn read_all<T: Tree>(
    alloc: Global,
    tree: &mut T,
    path: &Path,
    course: &mut Course,
) -> Result<(), ProfileFault>
    requires above { course.old.above.items ≡ [] }
    requires folders { course.old.folders.items ≡ [] }
    ensures found { IsTrue T.tells → OnOk result
        (AreFolders (T.story tree.old).now.holds path.now course.new.folders.items) }
    ensures fault { IsTrue T.tells → IfErr result (λ e. IsOfMachine e ⊎
        FirstFault (T.story tree.old).now.holds path.now course.new.folders.items e) }
    ensures same { IsTrue T.tells → T.story tree.new ≡ T.story tree.old }
    ensures faults { CountsFault (IsErrOf result (ProfileFault.Tree TreeFault.Failed))
        (T.faults tree.old) (T.faults tree.new) }
{
    let folder = find_start(alloc, tree, path)?;
    read_profile(alloc, tree, &folder, course)
}

/// Reads the profile of the folder behind its parents.
fn read_profile<T: Tree>(
    alloc: Global,
    tree: &mut T,
    folder: &Path,
    course: &mut Course,
) -> Result<(), ProfileFault>
    requires room { length course.old.above.items < most_profiles }
    ensures found { IsTrue T.tells → OnOk result ((depth : ℕ) →
        most_profiles ≤ depth + length course.old.above.items →
        Reads depth (T.story tree.old).now.holds course.old.above.items folder.now
        course.old.folders.items course.new.folders.items None) }
    ensures fault { IsTrue T.tells → IfErr result (λ e. IsOfMachine e ⊎ ((depth : ℕ) →
        most_profiles ≤ depth + length course.old.above.items →
        Reads depth (T.story tree.old).now.holds course.old.above.items folder.now
        course.old.folders.items course.new.folders.items (Some e))) }
    ensures above { OnOk result (course.new.above.items ≡ course.old.above.items) }
    ensures same { IsTrue T.tells → T.story tree.new ≡ T.story tree.old }
    ensures faults { CountsFault (IsErrOf result (ProfileFault.Tree TreeFault.Failed))
        (T.faults tree.old) (T.faults tree.new) }
{
    let parents = read_parents(alloc, tree, folder)?;
    course.above.push(folder.try_clone()?)?;
    for parent in &parents {
        check_parent(tree, course, parent)?;
        read_profile(alloc, tree, &parent.folder, course)?;
    }
    course.above.pop();
    course.folders.push(folder.try_clone()?)?;
    Ok(())
}

/// Whether the profile of the parent's folder may be read next, or else why not.
fn check_parent<T: Tree>(tree: &mut T, course: &Course, parent: &Parent) -> Result<(), ProfileFault>
    ensures may { IsTrue T.tells → OnOk result (MayRead (T.story tree.old).now.holds
        course.now.above.items course.now.folders.items parent.now.folder) }
    ensures room { OnOk result (length course.now.above.items < most_profiles) }
    ensures fault { IsTrue T.tells → IfErr result (λ e. IsOfMachine e ⊎
        MayNotRead (T.story tree.old).now.holds course.now.above.items
        course.now.folders.items parent.now e) }
    ensures same { IsTrue T.tells → T.story tree.new ≡ T.story tree.old }
    ensures faults { CountsFault (IsErrOf result (ProfileFault.Tree TreeFault.Failed))
        (T.faults tree.old) (T.faults tree.new) }
{
    if has(&course.above, &parent.folder) {
        return Err(ProfileFault::Loop {
            path: parent.file.try_clone()?,
            line: parent.line,
        });
    }
    if course.above.len().saturating_add(course.folders.len()) >= MOST_PROFILES {
        return Err(ProfileFault::Deep {
            path: parent.file.try_clone()?,
            line: parent.line,
        });
    }
    if !is_folder(tree, &parent.folder)? {
        return Err(ProfileFault::Missing {
            path: parent.folder.try_clone()?,
        });
    }
    Ok(())
}

/// Whether the path is one of these.
fn has(paths: &[Path], path: &Path) -> bool
    ensures { IsTrue result ↔ Has paths.now path.now }
{
    paths.contains(path)
}
