ghost use Rattle.std.specs.Prelude.{IfOk};
ghost use Rattle.plan_model.specs.Offers.{ComesAs};

use crate::entering::{closed_tree, entered_tree};
use crate::flags::flags_on;
use build_pool::Order;
use pkg_state::{Pkg, facts_with};
use std::alloc::{AllocError, Global};

/// The offered package as it enters with the addition.
pub(crate) fn entering(alloc: Global, addition: &Order, pkg: &Pkg) -> Result<Pkg, AllocError>
    ensures { IfOk result (λ q. ComesAs addition.now pkg.now q) }
{
    let on = flags_on(&addition.enabled, &pkg.facts.enabled)?;
    let rdepend = entered_tree(alloc, &pkg.rdepend, &on, addition.binds.list())?;
    let pdepend = closed_tree(alloc, &pkg.pdepend, &on)?;
    let depend = closed_tree(alloc, &pkg.depend, &on)?;
    let bdepend = closed_tree(alloc, &pkg.bdepend, &on)?;
    let idepend = closed_tree(alloc, &pkg.idepend, &on)?;
    let required_use = pkg.required_use.try_clone()?;
    let facts = facts_with(&pkg.facts, on)?;
    Ok(Pkg {
        facts,
        eapi: pkg.eapi,
        rdepend,
        pdepend,
        depend,
        bdepend,
        idepend,
        required_use,
    })
}
