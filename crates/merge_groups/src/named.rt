ghost use Rattle.std.specs.Prelude.{map};
ghost use Rattle.std.specs.List.{AllByRecursion};
ghost use Rattle.merge_groups.specs.Named.{IsNamed};

use pkg_state::Pkg;
use vdb_files::facts_are_named;
use vdb_paths::id_is_one;

/// A law: a package is named as its types promise.
pub(crate) fn package_is_named(pkg: &Pkg)
    ensures { IsNamed pkg.now }
{
    id_is_one(&pkg.facts.id);
    facts_are_named(&pkg.facts);
}

/// A law: so are all of them.
pub(crate) fn packages_are_named(packages: &[&Pkg])
    ensures { AllByRecursion IsNamed (map (λ p. p.now) packages.now) }
{
    for package in packages {
        package_is_named(package);
    }
}
