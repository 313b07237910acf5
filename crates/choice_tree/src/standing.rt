ghost use Rattle.std.specs.Prelude.{◌≡◌, IfOk, map, string_bytes};
ghost use Rattle.dep_atom.specs.Ids.{id_text};
ghost use Rattle.dep_atom.specs.Values.{atom_value};
ghost use Rattle.choice_tree.specs.Blocks.{blocks_of};

use crate::blocks::blocks_of;
use dep_atom::Atom;
use pkg_state::Pkg;
use std::alloc::{AllocError, Global};

/// A package that stands on a line, with its text and the atoms that it blocks.
#[derive(Drop)]
pub struct Standing<'a> {
    pub owner: &'a Pkg,
    /// It isn't there yet.
    pub is_new: bool,
    pub text: String,
    pub blocks: Vec<&'a Atom>,
    ghost own_text: { string_bytes text ≡ id_text owner.now.facts.id },
    ghost own_blocks: { map (λ a. atom_value a.now) blocks.items ≡ blocks_of is_new owner.now },
}

impl<'a> Standing<'a> {
    /// The package as it stands, with what it blocks.
    pub fn new(alloc: Global, owner: &'a Pkg, is_new: bool) -> Result<Standing<'a>, AllocError>
        ensures owner { IfOk result (λ s. s.owner.now ≡ owner.now) }
        ensures new { IfOk result (λ s. s.is_new ≡ is_new) }
    {
        let text = owner.facts.id.print(alloc)?;
        let blocks = blocks_of(alloc, owner, is_new)?;
        Ok(Standing {
            owner,
            is_new,
            text,
            blocks,
        })
    }
}
