ghost use Rattle.std.specs.Prelude.{◌≡◌, IfOk};
ghost use Rattle.std.specs.List.{find};
ghost use Rattle.std.specs.Option.{option_map};
ghost use Rattle.pkg_state.specs.Consistent.{blocks, facts_of};
ghost use Rattle.pkg_state.specs.Blocks.{AreBlocks};
ghost use Rattle.pkg_state.specs.Index.{AreNamed, all_blocks};

use crate::block::Block;
use crate::blocks::add_blocks;
use crate::by_text::ByText;
use crate::package::Pkg;
use dep_atom::Atom;
use dep_tree::Present;
use pms_names::Flags;
use std::alloc::{AllocError, Global};

/// Packages, and what an atom finds among them by its name.
#[derive(Drop)]
pub(crate) struct Around<'a> {
    packages: &'a [Pkg],
    named: ByText<'a, &'a Pkg>,
    blocks: ByText<'a, Block<'a>>,
    ghost are_named: { AreNamed packages.now named.lists },
    ghost are_blocks: { AreBlocks (all_blocks packages.now) blocks.lists },
}

/// The packages under their own names.
pub fn by_own_name<'a>(
    alloc: Global,
    packages: &'a [Pkg],
) -> Result<ByText<'a, &'a Pkg>, AllocError>
    ensures { IfOk result (λ named. AreNamed packages.now named.lists) }
{
    let mut named = ByText::new(alloc);
    for package in packages {
        named.add(alloc, package.facts.id.name.package.text(), package)?;
    }
    Ok(named)
}

fn by_blocked_name<'a>(
    alloc: Global,
    packages: &'a [Pkg],
) -> Result<ByText<'a, Block<'a>>, AllocError>
    ensures { IfOk result (λ blocks. AreBlocks (all_blocks packages.now) blocks.lists) }
{
    let mut blocks = ByText::new(alloc);
    for package in packages {
        add_blocks(alloc, &mut blocks, package)?;
    }
    Ok(blocks)
}

impl<'a> Around<'a> {
    pub(crate) fn new(alloc: Global, packages: &'a [Pkg]) -> Result<Around<'a>, AllocError>
        ensures { IfOk result (λ around. around.packages.now ≡ packages.now) }
    {
        let named = by_own_name(alloc, packages)?;
        let blocks = by_blocked_name(alloc, packages)?;
        Ok(Around {
            packages,
            named,
            blocks,
        })
    }

    /// The first of the packages that keeps this other one out, if one does.
    pub(crate) fn blocker(&self, alloc: Global, other: &Pkg) -> Result<Option<&'a Pkg>, AllocError>
        ensures { IfOk result (λ found. option_map (λ q. q.now) found ≡
            find (λ q. blocks q other.now) self.now.packages.now) }
    {
        let line = other.line(alloc)?;
        for block in self.blocks.get(other.facts.id.name.package.text()) {
            if block.keeps_out(other, &line) {
                return Ok(Some(block.owner));
            }
        }
        Ok(None)
    }
}

impl<'a> Present for Around<'a> {
    ghost facts = { λ around. facts_of around.packages.now };

    fn some_match(&self, atom: &Atom, asker: &Flags) -> bool {
        for package in self.named.get(atom.name.package.text()) {
            if atom.matches(&package.facts, asker) {
                return true;
            }
        }
        false
    }
}
