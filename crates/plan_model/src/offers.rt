ghost use Rattle.std.specs.Prelude.{◌≡◌, IfOk};
ghost use Rattle.pkg_state.specs.Index.{AreNamed};

use pkg_state::{ByText, Pkg, by_own_name};
use std::alloc::{AllocError, Global};

/// Packages that are offered, which are found by their names.
#[derive(Drop)]
pub(crate) struct Offers<'a> {
    offered: &'a [Pkg],
    pub(crate) named: ByText<'a, &'a Pkg>,
    ghost are_named: { AreNamed offered.now named.lists },
}

impl<'a> Offers<'a> {
    pub(crate) fn new(alloc: Global, offered: &'a [Pkg]) -> Result<Offers<'a>, AllocError>
        ensures { IfOk result (λ offers. offers.offered.now ≡ offered.now) }
    {
        let named = by_own_name(alloc, offered)?;
        Ok(Offers { offered, named })
    }
}
