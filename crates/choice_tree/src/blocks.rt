ghost use Rattle.std.specs.Prelude.{◌≡◌, IfOk, map};
ghost use Rattle.dep_atom.specs.Values.{atom_value};
ghost use Rattle.choice_tree.specs.Blocks.{blocks_of};

use dep_atom::Atom;
use pkg_state::{Class, Pkg};
use std::alloc::{AllocError, Global};

/// The blocks of a package that count: those of its build too, while it is new.
pub(crate) fn blocks_of(alloc: Global, owner: &Pkg, is_new: bool) -> Result<Vec<&Atom>, AllocError>
    ensures { IfOk result (λ v. map (λ a. atom_value a.now) v.items ≡
        blocks_of is_new owner.now) }
{
    let mut blocks = Vec::new(alloc);
    owner.push_blocks(alloc, Class::Rdepend, &mut blocks)?;
    owner.push_blocks(alloc, Class::Pdepend, &mut blocks)?;
    if is_new {
        owner.push_blocks(alloc, Class::Depend, &mut blocks)?;
        owner.push_blocks(alloc, Class::Bdepend, &mut blocks)?;
        owner.push_blocks(alloc, Class::Idepend, &mut blocks)?;
    }
    Ok(blocks)
}
