ghost use Rattle.std.specs.Prelude.{◌≡◌, IfOk, true};
ghost use Rattle.dep_atom.specs.Ids.{IsId};
ghost use Rattle.file_tree.specs.Fixed.{database_path};
ghost use Rattle.vdb_paths.specs.Files.{is_file_name, package_file_path, package_folder};

use dep_atom::PackageId;
use file_tree::{DATABASE, Path};
use std::alloc::{AllocError, Global};

/// The path of the folder of the installed packages.
#[tactic(auto, unfolding(file_tree::specs::Fixed::database_path, file_tree::specs::Paths::is_path))]
pub fn path_of_database(alloc: Global) -> Result<Path, AllocError>
    ensures { IfOk result (λ p. p ≡ database_path) }
{
    Path::of(alloc, DATABASE)
}

/// A law: a package is named as its type promises.
pub fn id_is_one(id: &PackageId)
    ensures { IsId id.now }
{
    let _ = id.name.category.text();
    let _ = id.name.package.text();
    let _ = id.version.text();
}

/// The path of the package's own folder in the database.
pub fn path_of_package(alloc: Global, id: &PackageId) -> Result<Path, AllocError>
    ensures { IfOk result (λ p. p ≡ package_folder id.now) }
{
    id_is_one(id);
    let name = id.print(alloc)?;
    let text = format!(in alloc; "{DATABASE}/{name}")?;
    Path::of(alloc, text.as_str())
}

/// The path of a file of the package's record.
#[tactic(auto, unfolding(crate::specs::Files::package_file_path))]
pub fn path_of_record(alloc: Global, id: &PackageId, name: &str) -> Result<Path, AllocError>
    requires { is_file_name name.now ≡ true }
    ensures { IfOk result (λ p. p ≡ package_file_path id.now name.now) }
{
    id_is_one(id);
    let id = id.print(alloc)?;
    let text = format!(in alloc; "{DATABASE}/{id}/{name}")?;
    Path::of(alloc, text.as_str())
}
