ghost use Rattle.std.specs.Prelude.{◌≡◌, ◌++◌, [], ℕ, List, IfOk, OnOk, map};
ghost use Rattle.basics.specs.Members.{AreDistinct};
ghost use Rattle.std.specs.List.{AllZip};
ghost use Rattle.vdb_law.specs.Packages.{Installed as InstalledValue};
ghost use Rattle.plan_law.specs.Plans.{Group as GroupValue};
ghost use Rattle.run_files.specs.Keys.{folder_of, folders_with};
ghost use Rattle.run_files.specs.Made.{AreFilesFor};
ghost use Rattle.run_files.specs.Places.{ArePlaces};
ghost use Rattle.merge_group.specs.Working.{all_in};
ghost use Rattle.merge_fit.specs.Images.{path_of};
ghost use Rattle.pkg_state.specs.Package.{Package};
ghost use Rattle.run_turns.specs.Held.{held_for, holding, holding_all, holdings_of};
ghost use Rattle.run_turns.specs.Plans.{coming};
ghost use Rattle.run_turns.specs.Turns.{IsTurnOf};

use crate::held::Held;
use file_tree::{Entry, Path};
use merge_group::{Files, Turn};
use plan_lives::{Group, Removal};
use run_files::{Newcomer, Places, add_free, files_of, newcomers_are_named, placed};
use std::alloc::{AllocError, Global};

/// Makes the turn of a group that brings these newcomers, and holds what they place.
pub fn make_turn(
    alloc: Global,
    places: &Places,
    held: &mut Held,
    group: &Group,
    number: u32,
    newcomers: Vec<Newcomer>,
) -> Result<Turn, AllocError>
    ensures number { IfOk result (λ t. t.group ≡ number) }
    ensures turn { (ps : List InstalledValue) (plan : List GroupValue) →
        ArePlaces (folders_with ps (coming plan)) places.now → IfOk result
        (IsTurnOf ps plan group.now (holdings_of held.old) newcomers.items) }
    ensures once { IfOk result (λ t. AreDistinct t.removals.items) }
    ensures held { IfOk result (λ t. (q : List ℕ) → holdings_of held.new q ≡
        holding_all newcomers.items t.packages.items (holdings_of held.old) q) }
{
    newcomers_are_named(&newcomers);
    let going = going_paths(alloc, held, &group.removals)?;
    let packages = bring_all(alloc, places, held, newcomers)?;
    let mut taken = placed(alloc, &packages)?;
    let mut removals = Vec::new(alloc);
    add_free(alloc, going, &mut taken, &mut removals)?;
    Ok(Turn {
        group: number,
        removals,
        packages,
    })
}

/// The paths that are held for the packages that the removals name.
fn going_paths(alloc: Global, held: &Held, removals: &[Removal]) -> Result<Vec<Path>, AllocError>
    ensures { IfOk result (λ v. v.items ≡ held_for (holdings_of held.now) removals.now) }
{
    let mut paths = Vec::new(alloc);
    for removal in removals {
        held.add_held(alloc, &removal.id, &mut paths)?;
    }
    Ok(paths)
}

/// The files of each package that comes; what they place is held for its folder.
fn bring_all(
    alloc: Global,
    places: &Places,
    held: &mut Held,
    newcomers: Vec<Newcomer>,
) -> Result<Vec<Files>, AllocError>
    ensures files { (ps : List InstalledValue) (coming : List Package) →
        ArePlaces (folders_with ps coming) places.now →
        IfOk result (λ v. AllZip (AreFilesFor ps coming) newcomers.items v.items) }
    ensures held { IfOk result (λ v. (q : List ℕ) → holdings_of held.new q ≡
        holding_all newcomers.items v.items (holdings_of held.old) q) }
{
    let mut all = Vec::with_capacity(alloc, newcomers.len())?;
    for newcomer in newcomers {
        all.push(bring(alloc, places, held, newcomer)?)?;
    }
    Ok(all)
}

/// The files of a package that comes; what they place is held for its folder.
fn bring(
    alloc: Global,
    places: &Places,
    held: &mut Held,
    newcomer: Newcomer,
) -> Result<Files, AllocError>
    ensures files { (ps : List InstalledValue) (coming : List Package) →
        ArePlaces (folders_with ps coming) places.now →
        IfOk result (AreFilesFor ps coming newcomer) }
    ensures held { IfOk result (λ f. (q : List ℕ) → holdings_of held.new q ≡
        holding (folder_of newcomer.pkg) (map path_of (all_in f)) (holdings_of held.old) q) }
{
    let folder = newcomer.pkg.facts.id.print(alloc)?;
    let files = files_of(alloc, places, newcomer)?;
    let mut paths = Vec::new(alloc);
    add_entries(&files.image, &mut paths)?;
    add_entries(&files.folder, &mut paths)?;
    held.hold(folder, paths)?;
    Ok(files)
}

/// Puts the paths of entries behind others.
fn add_entries(entries: &[Entry], paths: &mut Vec<Path>) -> Result<(), AllocError>
    ensures { OnOk result (paths.new.items ≡ paths.old.items ++ map path_of entries.now) }
{
    for entry in entries {
        paths.push(entry.path.try_clone()?)?;
    }
    Ok(())
}
