ghost use Rattle.std.specs.Prelude.{◌≡◌, ◌↔◌, IfErr, IfOk, IsTrue, List, ℕ};
ghost use Rattle.config_text.specs.Faults.{LineFault};
ghost use Rattle.dep_atom.specs.declared.atom.Block.TheVariants.{No};
ghost use Rattle.dep_atom.specs.declared.fault.AtomFault.TheVariants as atoms;
ghost use Rattle.world_text.specs.World.{IsFaulty, IsWorld, Names, NamesPlain};

use crate::fault::WorldFault;
use config_text::{Line, TextFault, lines};
use dep_atom::{Atom, AtomFault, Block};
use dep_group::words;
use std::alloc::{AllocError, Global};

/// The place of the world file.
pub const WORLD: &str = "var/lib/portage/world";

fn is_unblocked(atom: &Atom) -> bool
    ensures { IsTrue result ↔ (atom.now.block ≡ No) }
{
    match atom.block {
        Block::No => true,
        Block::Weak | Block::Strong => false,
    }
}

fn is_want(fault: &AtomFault) -> bool
    ensures { IsTrue result ↔ (fault.now ≡ atoms.Memory) }
{
    match fault {
        AtomFault::Memory => true,
        AtomFault::Name
        | AtomFault::Version
        | AtomFault::OperatorWithoutVersion
        | AtomFault::VersionWithoutOperator
        | AtomFault::BadStar
        | AtomFault::BadSlot
        | AtomFault::BadUse { .. } => false,
    }
}

/// The atom that the word is, if it is one without a block.
fn plain_atom(alloc: Global, word: &str) -> Result<Option<Atom>, AllocError>
    ensures { IfOk result (NamesPlain word.now) }
{
    match Atom::parse(alloc, word) {
        Ok(atom) if is_unblocked(&atom) => Ok(Some(atom)),
        Ok(_) => Ok(None),
        Err(fault) if is_want(&fault) => Err(AllocError),
        Err(_) => Ok(None),
    }
}

/// The atom that the line is, if it is one.
fn atom_of(alloc: Global, line: &Line) -> Result<Option<Atom>, AllocError>
    ensures { IfOk result (Names line.now) }
{
    let words = words(alloc, line.text.as_str())?;
    if words.len() != 1 {
        return Ok(None);
    }
    plain_atom(alloc, words[0].text)
}

/// What it is called that a text has no lines.
fn of_text(fault: TextFault) -> WorldFault
    ensures { (text : List ℕ) → LineFault text fault → IsFaulty text result }
{
    match fault {
        TextFault::NotUtf8 { .. } => WorldFault::NotUtf8,
        TextFault::BadKey { .. } | TextFault::OpenQuote { .. } | TextFault::Memory => {
            WorldFault::Memory
        }
    }
}

/// The atoms of a world file, line by line.
pub fn read_world(alloc: Global, bytes: &[u8]) -> Result<Vec<Atom>, WorldFault>
    ensures found { IfOk result (λ v. IsWorld bytes.now v.items) }
    ensures fault { IfErr result (IsFaulty bytes.now) }
{
    let lines = match lines(alloc, bytes) {
        Ok(lines) => lines,
        Err(fault) => return Err(of_text(fault)),
    };
    let mut atoms = Vec::new(alloc);
    for line in &lines {
        match atom_of(alloc, line)? {
            Some(atom) => atoms.push(atom)?,
            None => return Err(WorldFault::Atom { line: line.number }),
        }
    }
    Ok(atoms)
}
