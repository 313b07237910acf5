ghost use Rattle.std.specs.Prelude.{◌≡◌, ◌++◌, List, ℕ, IfOk, OnOk, map};
ghost use Rattle.merge_group.specs.Working.{all_of};
ghost use Rattle.merge_fit.specs.Images.{path_of as entry_path};
ghost use Rattle.file_tree.specs.PathSets.{HasSame};
ghost use Rattle.run_files.specs.Removing.{AddsFree};

use file_tree::{Entry, Path, TakenPaths};
use merge_group::Files;
use std::alloc::{AllocError, Global};

/// The paths that the files are for.
pub fn placed(alloc: Global, files: &[Files]) -> Result<TakenPaths, AllocError>
    ensures { IfOk result (λ t. HasSame t (map entry_path (all_of files.now))) }
{
    let mut taken = TakenPaths::new(alloc);
    for one in files {
        take_all(alloc, &one.image, &mut taken)?;
        take_all(alloc, &one.folder, &mut taken)?;
    }
    Ok(taken)
}

/// Takes the paths of the entries.
fn take_all(alloc: Global, entries: &[Entry], taken: &mut TakenPaths) -> Result<(), AllocError>
    ensures { OnOk result (HasSame taken.new (taken.old ++ map entry_path entries.now)) }
{
    for entry in entries {
        let _free = taken.take(alloc, &entry.path)?;
    }
    Ok(())
}

/// Puts those of the paths that are free behind the removals, and takes them.
pub fn add_free(
    alloc: Global,
    paths: Vec<Path>,
    taken: &mut TakenPaths,
    removals: &mut Vec<Path>,
) -> Result<(), AllocError>
    ensures taken { (placed : List (List ℕ)) → HasSame taken.old (placed ++ removals.old.items) →
        OnOk result (HasSame taken.new (placed ++ removals.new.items)) }
    ensures added { (placed : List (List ℕ)) → HasSame taken.old (placed ++ removals.old.items) →
        OnOk result (AddsFree placed paths.items removals.old.items removals.new.items) }
{
    for path in paths {
        if taken.take(alloc, &path)? {
            removals.push(path)?;
        }
    }
    Ok(())
}
