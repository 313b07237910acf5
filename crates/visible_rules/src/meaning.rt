ghost use Rattle.std.specs.Prelude.{◌≡◌};
ghost use Rattle.visible_rules.specs.Items.{is_meant};

use dep_atom::{Atom, Facts};
use pms_names::Flags;
use std::alloc::Global;

/// Whether the atom matches the package, for an asker without flags.
pub(crate) fn is_meant(alloc: Global, facts: &Facts, atom: &Atom) -> bool
    ensures { result ≡ is_meant facts.now atom.now }
{
    let asker = Flags::new(alloc);
    atom.matches(facts, &asker)
}
