ghost use Rattle.std.specs.Prelude.{◌≡◌, ℕ, List, IfOk, map};
ghost use Rattle.merge_fit.specs.Misfits.{AreGood};
ghost use Rattle.law_package.specs.Records.{owned_of};
ghost use Rattle.vdb_files.specs.Written.{AreFolderFiles, installed_with};
ghost use Rattle.law_commit.specs.Lit.{as_recorded};
ghost use Rattle.vdb_law.specs.Packages.{Installed as InstalledValue};
ghost use Rattle.pkg_state.specs.Package.{Package};
ghost use Rattle.run_files.specs.Keys.{folders_with};
ghost use Rattle.run_files.specs.Made.{AreFilesFor};
ghost use Rattle.run_files.specs.Places.{ArePlaces};

use crate::newcomer::Newcomer;
use crate::owned::all_owned;
use crate::places::Places;
use file_tree::Entry;
use merge_group::Files;
use pkg_state::Pkg;
use std::alloc::{AllocError, Global};
use vdb_files::{facts_are_named, folder_files, recorded_flags};
use vdb_record::Installed;

/// The package as it is recorded: of the flags that are on, those that it knows.
fn as_recorded(alloc: Global, pkg: Pkg) -> Result<Pkg, AllocError>
    ensures { IfOk result (λ p. p ≡ as_recorded pkg) }
{
    facts_are_named(&pkg.facts);
    let mut recorded = pkg;
    recorded.facts.enabled = recorded_flags(alloc, &recorded.facts)?;
    facts_are_named(&recorded.facts);
    Ok(recorded)
}

/// The files of a folder that record a package with this image.
fn recorded_files(alloc: Global, pkg: Pkg, image: &[Entry]) -> Result<Vec<Entry>, AllocError>
    ensures { AreGood image.now → IfOk result
        (λ v. AreFolderFiles (installed_with (as_recorded pkg) (map owned_of image.now)) v.items) }
{
    let owned = all_owned(alloc, image)?;
    let recorded = as_recorded(alloc, pkg)?;
    folder_files(
        alloc,
        &Installed {
            pkg: recorded,
            owned,
        },
    )
}

/// The files of a package that comes.
pub fn files_of(alloc: Global, places: &Places, newcomer: Newcomer) -> Result<Files, AllocError>
    ensures { (ps : List InstalledValue) (coming : List Package) →
        ArePlaces (folders_with ps coming) places.now →
        IfOk result (AreFilesFor ps coming newcomer) }
{
    let owner = places.key(alloc, &newcomer.pkg.facts.id)?;
    let folder = recorded_files(alloc, newcomer.pkg, &newcomer.image)?;
    Ok(Files {
        owner,
        image: newcomer.image,
        folder,
    })
}
