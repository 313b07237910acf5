ghost use Rattle.std.specs.Prelude.{◌≡◌, ℕ, List, true};
ghost use Rattle.file_tree.specs.Paths.{is_below};
ghost use Rattle.dep_atom.specs.declared.package.PackageId.{PackageId};
ghost use Rattle.vdb_paths.specs.Files.{package_file_path};
ghost use Rattle.file_tree.specs.Fixed.{database_path};

/// A law: the files of a package's record are below the database's folder, each at its own path.
pub fn files_apart()
    ensures below { (id : PackageId) (name : List ℕ) →
        is_below database_path (package_file_path id name) ≡ true }
    ensures apart { (id : PackageId) (a b : List ℕ) →
        package_file_path id a ≡ package_file_path id b → a ≡ b }
{}
