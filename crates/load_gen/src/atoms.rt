ghost use Rattle.std.specs.Prelude.{◌≡◌, IfOk, map};
ghost use Rattle.std.specs.List.{AllByRecursion};
ghost use Rattle.dep_atom.specs.Atoms.{IsAtom};
ghost use Rattle.dep_atom.specs.Text.{atom_text};
ghost use Rattle.load_gen.specs.Loads.{load_names, name_of};

use crate::entries::name_of;
use dep_atom::Atom;
use std::alloc::{AllocError, Global};

/// The atoms that name all packages of a load, in the order of their numbers.
pub fn load_atoms(alloc: Global, count: u32) -> Result<Vec<Atom>, AllocError>
    ensures names { IfOk result (λ atoms. map atom_text atoms.items ≡ load_names count) }
    ensures form { IfOk result (λ atoms. AllByRecursion IsAtom atoms.items) }
{
    let mut atoms = Vec::with_capacity(alloc, count as usize)?;
    for number in 0..count {
        atoms.push(atom_of(alloc, number)?)?;
    }
    Ok(atoms)
}

/// The atom that names a package. Its text is one, so that only memory can be wanting.
fn atom_of(alloc: Global, number: u32) -> Result<Atom, AllocError>
    ensures name { IfOk result (λ atom. atom_text atom ≡ name_of number) }
    ensures form { IfOk result IsAtom }
{
    let name = name_of(alloc, number)?;
    match Atom::parse(alloc, name.as_str()) {
        Ok(atom) => Ok(atom),
        Err(_) => Err(AllocError),
    }
}
