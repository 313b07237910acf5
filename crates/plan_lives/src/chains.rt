ghost use Rattle.std.specs.Prelude.{◌≡◌, ◌++◌, ◌↔◌, IfOk, IsTrue, OnOk, length, map};
ghost use Rattle.dep_atom.specs.Values.{atom_value};
ghost use Rattle.plan_lives.specs.Gathered.{Chained, gathered, matching};
ghost use Rattle.plan_lives.specs.Index.{IsIndex, all_lives, plan_of};
ghost use Rattle.plan_lives.specs.Lives.{lives_of};
ghost use Rattle.plan_lives.specs.Stretches.{IsStretchWithin, stretch_value};

use crate::chain::are_joined;
use crate::index::Index;
use crate::life::Life;
use crate::stretch::Stretch;
use dep_atom::Atom;
use pms_names::Flags;
use std::alloc::{AllocError, Global};

/// Puts the lives whose packages the atom matches behind others.
pub(crate) fn add_matching<'a>(
    index: &Index<'a>,
    atom: &Atom,
    asker: &Flags,
    fits: &mut Vec<Life<'a>>,
) -> Result<(), AllocError>
    requires { IsIndex index.now }
    ensures { OnOk result (lives_of fits.new.items ≡ lives_of fits.old.items ++
        matching (atom_value atom.now) asker.now (all_lives index.now)) }
{
    for x in index.by_name.get(atom.name.package.text()) {
        let pkg = x.pkg;
        if atom.matches(&pkg.facts, asker) {
            fits.push(*x)?;
        }
    }
    Ok(())
}

/// The lives whose packages one of the atoms matches.
pub(crate) fn gathered<'a>(
    alloc: Global,
    index: &Index<'a>,
    atoms: &[&Atom],
    asker: &Flags,
) -> Result<Vec<Life<'a>>, AllocError>
    requires { IsIndex index.now }
    ensures { IfOk result (λ fits. lives_of fits.items ≡
        gathered (map (λ atom. atom_value atom.now) atoms.now) asker.now (all_lives index.now)) }
{
    let mut fits = Vec::new(alloc);
    for &atom in atoms {
        add_matching(index, atom, asker, &mut fits)?;
    }
    Ok(fits)
}

/// Whether packages that one of the atoms matches are there all through the stretch, for an asker
/// with these flags.
pub(crate) fn is_chained(
    alloc: Global,
    index: &Index<'_>,
    stretch: &Stretch,
    asker: &Flags,
    atoms: &[&Atom],
) -> Result<bool, AllocError>
    requires is { IsIndex index.now }
    requires within { IsStretchWithin (length (plan_of index.now)) (stretch_value stretch.now) }
    ensures { IfOk result (λ chained. IsTrue chained ↔
        Chained index.now stretch.now asker.now (map (λ atom. atom_value atom.now) atoms.now)) }
{
    let fits = gathered(alloc, index, atoms, asker)?;
    are_joined(alloc, index.reach, &fits, stretch)
}
