ghost use Rattle.std.specs.Prelude.{◌≡◌, IfOk, map};
ghost use Rattle.pms_names.specs.Flags.{byte_order};
ghost use Rattle.pkg_state.specs.Package.{line_of};
ghost use Rattle.plan_rules.specs.Order.{AreInOrder, package_key};

use pkg_state::{LineName, Pkg, copy_package};
use std::alloc::{AllocError, Global};
use std::cmp::Ordering;

/// A package with the line on which it stands.
#[derive(Drop)]
struct Lined<'a> {
    line: LineName,
    pkg: &'a Pkg,
    ghost own: { line ≡ line_of pkg.now.facts },
}

fn all_lined(alloc: Global, packages: &[Pkg]) -> Result<Vec<Lined<'_>>, AllocError>
    ensures { IfOk result (λ v. map (λ l. l.pkg.now) v.items ≡ packages.now) }
{
    let mut lined = Vec::with_capacity(alloc, packages.len())?;
    for pkg in packages {
        let line = pkg.line(alloc)?;
        lined.push(Lined { line, pkg })?;
    }
    Ok(lined)
}

fn compare(a: &Lined<'_>, b: &Lined<'_>) -> Ordering
    ensures { result ≡ byte_order (package_key a.now.pkg.now) (package_key b.now.pkg.now) }
{
    a.line.cmp(&b.line)
}

fn sorted(alloc: Global, packages: &[Pkg]) -> Result<Vec<Lined<'_>>, AllocError>
    ensures { IfOk result (λ v.
        AreInOrder package_key packages.now (map (λ l. l.pkg.now) v.items)) }
{
    let mut lined = all_lined(alloc, packages)?;
    lined.sort_by(|a, b| compare(a, b))?;
    Ok(lined)
}

/// Copies of the packages, in the order of their lines.
pub fn in_line_order(alloc: Global, packages: &[Pkg]) -> Result<Vec<Pkg>, AllocError>
    ensures { IfOk result (λ v. AreInOrder package_key packages.now v.items) }
{
    let lined = sorted(alloc, packages)?;
    let mut copies = Vec::with_capacity(alloc, lined.len())?;
    for one in &lined {
        copies.push(copy_package(one.pkg)?)?;
    }
    Ok(copies)
}
