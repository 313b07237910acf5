use pkg_state::Pkg;
use std::marker::Model;
use vdb_contents::Owned;

/// An installed package, with the paths that it owns in the order in which it recorded them.
#[derive(Debug, Drop)]
pub struct Installed {
    pub pkg: Pkg,
    pub owned: Vec<Owned>,
}

impl Model for Installed {
    ghost use Rattle.std.specs.Coded.{codes};
    ghost use Rattle.pkg_state.specs.Codes.{trees_code};
    ghost use Rattle.vdb_law.specs.Packages.{Installed as InstalledValue};

    ghost Value = { InstalledValue };

    ghost coded = { Prim.hlevel (codes, trees_code) };

    ghost view = { λ p. record { package_is = p.pkg; owned = p.owned.items } };
}
