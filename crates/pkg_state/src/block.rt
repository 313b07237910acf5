ghost use Rattle.std.specs.Prelude.{◌≡◌};
ghost use Rattle.dep_atom.specs.Values.{atom_value};
ghost use Rattle.pkg_state.specs.Index.{keeps_out};
ghost use Rattle.pkg_state.specs.Package.{line_of};

use crate::line::LineName;
use crate::package::Pkg;
use dep_atom::{Atom, Block as Blocking};

/// A block of its owner, which stands on the line.
#[derive(Drop)]
pub(crate) struct Block<'a> {
    pub(crate) owner: &'a Pkg,
    pub(crate) line: LineName,
    pub(crate) atom: &'a Atom,
    ghost own: { line ≡ line_of owner.now.facts },
}

impl<'a> Block<'a> {
    /// Whether it keeps out the other package, which stands on the line. What stands on its own line
    /// it doesn't.
    pub(crate) fn keeps_out(&self, other: &Pkg, line: &LineName) -> bool
        requires { line.now ≡ line_of other.now.facts }
        ensures { result ≡ keeps_out other.now (self.now.owner.now, atom_value self.now.atom.now) }
    {
        let owner = self.owner;
        self.atom.matches(&other.facts, &owner.facts.enabled) && self.line != *line
    }
}
