ghost use Rattle.std.specs.Prelude.{◌≡◌, ◌++◌, IfOk, OnOk, map};
ghost use Rattle.std.specs.List.{list_any};
ghost use Rattle.dep_atom.specs.Match.{value_matches};
ghost use Rattle.dep_atom.specs.Values.{atom_value};
ghost use Rattle.plan_law.specs.Sound.{is_strong_block};
ghost use Rattle.plan_lives.specs.Keeping.{barring_blocks, running_blocks, strong_blocks_in};

use dep_atom::{Atom, Block};
use pkg_state::{Class, Pkg};
use pms_names::Flags;
use std::alloc::{AllocError, Global};

fn is_strong_block(atom: &Atom) -> bool
    ensures { result ≡ is_strong_block atom.now.block }
{
    match atom.block {
        Block::No | Block::Weak => false,
        Block::Strong => true,
    }
}

fn add_strong_blocks<'a>(
    alloc: Global,
    pkg: &'a Pkg,
    class: Class,
    blocks: &mut Vec<&'a Atom>,
) -> Result<(), AllocError>
    ensures { OnOk result (map (λ atom. atom_value atom.now) blocks.new.items ≡
        map (λ atom. atom_value atom.now) blocks.old.items ++ strong_blocks_in class pkg.now) }
{
    let leaves = pkg.tree(class).leaves(alloc, &pkg.facts.enabled)?;
    for &atom in &leaves {
        if is_strong_block(atom) {
            blocks.push(atom)?;
        }
    }
    Ok(())
}

/// The blocks of a package that count while it is there.
pub fn running_blocks<'a>(alloc: Global, pkg: &'a Pkg) -> Result<Vec<&'a Atom>, AllocError>
    ensures { IfOk result (λ blocks. map (λ atom. atom_value atom.now) blocks.items ≡
        running_blocks pkg.now) }
{
    let mut blocks = Vec::new(alloc);
    pkg.push_blocks(alloc, Class::Rdepend, &mut blocks)?;
    pkg.push_blocks(alloc, Class::Pdepend, &mut blocks)?;
    Ok(blocks)
}

/// The blocks of a package that count when it may come.
pub fn barring_blocks<'a>(alloc: Global, pkg: &'a Pkg) -> Result<Vec<&'a Atom>, AllocError>
    ensures { IfOk result (λ blocks. map (λ atom. atom_value atom.now) blocks.items ≡
        barring_blocks pkg.now) }
{
    let mut blocks = Vec::new(alloc);
    add_strong_blocks(alloc, pkg, Class::Rdepend, &mut blocks)?;
    add_strong_blocks(alloc, pkg, Class::Pdepend, &mut blocks)?;
    pkg.push_blocks(alloc, Class::Depend, &mut blocks)?;
    pkg.push_blocks(alloc, Class::Bdepend, &mut blocks)?;
    pkg.push_blocks(alloc, Class::Idepend, &mut blocks)?;
    Ok(blocks)
}

/// Whether one of the blocks matches the package, for an asker with these flags.
pub fn some_matches(blocks: &[&Atom], asker: &Flags, other: &Pkg) -> bool
    ensures { result ≡ list_any (λ a. value_matches a other.now.facts asker.now)
        (map (λ atom. atom_value atom.now) blocks.now) }
{
    for &atom in blocks {
        if atom.matches(&other.facts, asker) {
            return true;
        }
    }
    false
}
