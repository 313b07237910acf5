ghost use Rattle.std.specs.Prelude.{◌≡◌, IfOk, MatchOption, string_bytes};
ghost use Rattle.dep_atom.specs.Ids.{IsId};
ghost use Rattle.dep_atom.specs.Text.{name_text};
ghost use Rattle.visible_verdicts.specs.Candidates.{cache_folder, cache_path, ebuild_name};
ghost use Rattle.visible_verdicts.specs.Candidates.{ebuild_path};
ghost use Rattle.visible_verdicts.specs.Places.{IsNoPlace, IsPlaceAt};

use basics::Text;
use dep_atom::PackageId;
use file_tree::Path;
use pms_names::Name;
use std::alloc::{AllocError, Global};

/// The folder of the cache.
const CACHE: &str = "var/db/repos/gentoo/metadata/md5-cache";

/// A package whose entry has a path in the cache, with the text of its name.
#[derive(Drop)]
pub(crate) struct Place {
    pub(crate) name: Text,
    pub(crate) id: PackageId,
}

/// The package whose entry has this path.
#[tactic(auto, unfolding(crate::specs::Candidates::cache_path))]
pub(crate) fn place_at(alloc: Global, path: &Path) -> Result<Option<Place>, AllocError>
    ensures { IfOk result (λ r. MatchOption r (IsNoPlace path.now) (IsPlaceAt path.now)) }
{
    let Some(text) = path.behind(CACHE) else {
        return Ok(None);
    };
    let Some(id) = PackageId::from_text(alloc, text)? else {
        return Ok(None);
    };
    let name = name_text(alloc, &id.name)?;
    Ok(Some(Place { name, id }))
}

fn name_text(alloc: Global, name: &Name) -> Result<Text, AllocError>
    ensures { IfOk result (λ t. t ≡ name_text name.now) }
{
    let category = name.category.text();
    let package = name.package.text();
    let text = format!(in alloc; "{category}/{package}")?;
    Ok(Text::from_string(text))
}

#[tactic(auto, unfolding(crate::specs::Candidates::cache_folder, file_tree::specs::Paths::is_path))]
pub(crate) fn folder_path(alloc: Global) -> Result<Path, AllocError>
    ensures { IfOk result (λ p. p ≡ cache_folder) }
{
    Path::of(alloc, CACHE)
}

/// The path of the package's entry.
#[tactic(auto, unfolding(crate::specs::Candidates::cache_path))]
pub(crate) fn entry_path(alloc: Global, id: &PackageId) -> Result<Path, AllocError>
    requires { IsId id.now }
    ensures { IfOk result (λ p. p ≡ cache_path id.now) }
{
    let id = id.print(alloc)?;
    let id = id.as_str();
    let text = format!(in alloc; "{CACHE}/{id}")?;
    Path::of(alloc, text.as_str())
}

/// The path of the package's ebuild.
#[tactic(auto, unfolding(crate::specs::Candidates::ebuild_path))]
pub(crate) fn ebuild_path(alloc: Global, id: &PackageId) -> Result<Path, AllocError>
    requires { IsId id.now }
    ensures { IfOk result (λ p. p ≡ ebuild_path id.now) }
{
    let category = id.name.category.text();
    let package = id.name.package.text();
    let name = ebuild_name(alloc, id)?;
    let name = name.as_str();
    let text = format!(in alloc; "var/db/repos/gentoo/{category}/{package}/{name}")?;
    Path::of(alloc, text.as_str())
}

fn ebuild_name(alloc: Global, id: &PackageId) -> Result<String, AllocError>
    ensures { IfOk result (λ t. string_bytes t ≡ ebuild_name id.now) }
{
    let package = id.name.package.text();
    let version = id.version.text();
    format!(in alloc; "{package}-{version}.ebuild")
}
