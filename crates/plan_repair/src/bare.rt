ghost use Rattle.std.specs.Prelude.{◌≡◌, IfOk, map};
ghost use Rattle.plan_repair.specs.Repair.{bare};

use dep_tree::DepTree;
use pkg_state::{Pkg, copy_facts};
use required_use::RequiredUse;
use std::alloc::{AllocError, Global};

/// The package as if it needed nothing.
fn bare(alloc: Global, pkg: &Pkg) -> Result<Pkg, AllocError>
    ensures { IfOk result (λ copy. copy ≡ bare pkg.now) }
{
    let facts = copy_facts(&pkg.facts)?;
    let empty_holds = pkg.eapi.empty_holds();
    Ok(Pkg {
        facts,
        eapi: pkg.eapi,
        rdepend: DepTree::new(alloc, empty_holds),
        pdepend: DepTree::new(alloc, empty_holds),
        depend: DepTree::new(alloc, empty_holds),
        bdepend: DepTree::new(alloc, empty_holds),
        idepend: DepTree::new(alloc, empty_holds),
        required_use: RequiredUse::new(alloc, empty_holds),
    })
}

/// The packages as if they needed nothing.
pub(crate) fn all_bare(alloc: Global, packages: &[Pkg]) -> Result<Vec<Pkg>, AllocError>
    ensures { IfOk result (λ copies. copies.items ≡ map bare packages.now) }
{
    let mut copies = Vec::with_capacity(alloc, packages.len())?;
    for pkg in packages {
        copies.push(bare(alloc, pkg)?)?;
    }
    Ok(copies)
}
