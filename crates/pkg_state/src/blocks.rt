ghost use Rattle.std.specs.Prelude.{◌≡◌, ◌++◌, ℕ, List, OnOk, map};
ghost use Rattle.pkg_state.specs.Blocks.{block_value};
ghost use Rattle.pkg_state.specs.Index.{blocks_of, blocks_of_class, listed, those_on};

use crate::block::Block;
use crate::by_text::ByText;
use crate::class::Class;
use crate::package::Pkg;
use dep_tree::is_block;
use std::alloc::{AllocError, Global};

fn add_class<'a>(
    alloc: Global,
    blocks: &mut ByText<'a, Block<'a>>,
    owner: &'a Pkg,
    class: Class,
) -> Result<(), AllocError>
    ensures { OnOk result ((name : List ℕ) → map block_value (listed blocks.new.lists name) ≡
        map block_value (listed blocks.old.lists name) ++
        those_on name (blocks_of_class class owner.now)) }
{
    let leaves = owner.tree(class).leaves(alloc, &owner.facts.enabled)?;
    for &atom in &leaves {
        if is_block(atom) {
            let line = owner.line(alloc)?;
            let block = Block { owner, line, atom };
            blocks.add(alloc, atom.name.package.text(), block)?;
        }
    }
    Ok(())
}

/// Puts the blocks of a package under the names that they block.
pub(crate) fn add_blocks<'a>(
    alloc: Global,
    blocks: &mut ByText<'a, Block<'a>>,
    owner: &'a Pkg,
) -> Result<(), AllocError>
    ensures { OnOk result ((name : List ℕ) → map block_value (listed blocks.new.lists name) ≡
        map block_value (listed blocks.old.lists name) ++
        those_on name (blocks_of owner.now)) }
{
    add_class(alloc, blocks, owner, Class::Rdepend)?;
    add_class(alloc, blocks, owner, Class::Pdepend)
}
