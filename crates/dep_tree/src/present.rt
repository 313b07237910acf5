ghost use Rattle.std.specs.Prelude.{◌≡◌, List};
ghost use Rattle.dep_atom.specs.declared.package.Facts.{Facts as TheFacts};
ghost use Rattle.dep_atom.specs.Values.{atom_value};
ghost use Rattle.dep_tree.specs.Truth.{some_match};

use dep_atom::{Atom, Facts};
use pms_names::Flags;

/// Packages that are there. Contracts see the list of what atoms ask of them.
pub trait Present {
    ghost facts: { Self → List TheFacts };

    /// Whether one of the packages matches the atom, for an asker with these flags.
    fn some_match(&self, atom: &Atom, asker: &Flags) -> bool
        ensures { result ≡ some_match (facts self.now) asker.now (atom_value atom.now) };
}

impl Present for Vec<Facts> {
    ghost facts = { λ v. v.items };

    fn some_match(&self, atom: &Atom, asker: &Flags) -> bool {
        self.iter().any(|target| atom.matches(target, asker))
    }
}
