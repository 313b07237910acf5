ghost use Rattle.std.specs.Prelude.{◌≡◌, ◌++◌, ℕ, List, IfOk, OnOk, map};
ghost use Rattle.vdb_law.specs.Packages.{Installed as InstalledValue};
ghost use Rattle.plan_law.specs.Plans.{Group as GroupValue};
ghost use Rattle.run_files.specs.Keys.{folder_of, folders_with};
ghost use Rattle.run_files.specs.Places.{ArePlaces};
ghost use Rattle.run_turns.specs.Plans.{coming, key_of_id};

use merge_record::OwnerKey;
use pkg_state::Pkg;
use plan_lives::{Group, Removal};
use run_files::Places;
use std::alloc::{AllocError, Global};
use vdb_record::Installed;

/// The places of the installed packages, and behind them those of all that come with the plan.
pub fn plan_places(
    alloc: Global,
    installed: &[Installed],
    plan: &[Group],
) -> Result<Places, AllocError>
    ensures { IfOk result (ArePlaces (folders_with installed.now (coming plan.now))) }
{
    let mut places = Places::new(alloc);
    for package in installed {
        places.add(alloc, &package.pkg.facts.id)?;
    }
    for group in plan {
        add_additions(alloc, &group.additions, &mut places)?;
    }
    Ok(places)
}

fn add_additions(alloc: Global, additions: &[Pkg], places: &mut Places) -> Result<(), AllocError>
    ensures { (texts : List (List ℕ)) → ArePlaces texts places.old →
        OnOk result (ArePlaces (texts ++ map folder_of additions.now) places.new) }
{
    for addition in additions {
        places.add(alloc, &addition.facts.id)?;
    }
    Ok(())
}

/// The keys of the packages that the removals name.
pub(crate) fn removed_keys(
    alloc: Global,
    places: &Places,
    removals: &[Removal],
) -> Result<Vec<OwnerKey>, AllocError>
    ensures { (ps : List InstalledValue) (plan : List GroupValue) →
        ArePlaces (folders_with ps (coming plan)) places.now →
        IfOk result (λ v. v.items ≡ map (λ r. key_of_id ps plan r.id) removals.now) }
{
    let mut keys = Vec::with_capacity(alloc, removals.len())?;
    for removal in removals {
        keys.push(places.key(alloc, &removal.id)?)?;
    }
    Ok(keys)
}
