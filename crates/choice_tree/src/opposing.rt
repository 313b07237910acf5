ghost use Rattle.std.specs.Prelude.{◌≡◌};
ghost use Rattle.choice_law.specs.Universe.{conflicts};
ghost use Rattle.choice_tree.specs.Blocks.{hit};
ghost use Rattle.dep_atom.specs.Ids.{id_text};
ghost use Rattle.dep_atom.specs.Values.{atom_value};
ghost use Rattle.std.specs.Prelude.{bytes_eq, map};

use crate::standing::Standing;
use dep_atom::Atom;
use pkg_state::Pkg;

fn hits(atoms: &[&Atom], one: &Pkg, other: &Pkg) -> bool
    ensures { result ≡ hit (map (λ a. atom_value a.now) atoms.now) one.now other.now }
{
    for atom in atoms {
        if atom.matches(&other.facts, &one.facts.enabled) {
            return true;
        }
    }
    false
}

pub(crate) fn is_same(one: &str, other: &str) -> bool
    ensures { result ≡ bytes_eq one.now other.now }
{
    one == other
}

/// Whether the package can't stand beside another, of which this is the text.
pub fn conflict(one: &Standing<'_>, other: &Pkg, text: &str) -> bool
    requires { text.now ≡ id_text other.now.facts.id }
    ensures { result ≡ conflicts one.now.is_new one.now.owner.now other.now }
{
    hits(&one.blocks, one.owner, other) || is_same(one.text.as_str(), text)
}
