ghost use Rattle.std.specs.Prelude.{◌≡◌, true, IfErr, IfOk, map};
ghost use Rattle.std.specs.List.{list_any};
ghost use Rattle.dep_atom.specs.Text.{atom_text};
ghost use Rattle.emerge_words.specs.Named.{AreNamed, HasNoAtom, IsFree, TellsNoAtom, TellsAtom};
ghost use Rattle.emerge_words.specs.Named.{atom_words, has_world, is_kept, is_world};

use crate::request::WordFault;
use dep_atom::{Atom, AtomFault, Block};
use std::alloc::Global;

/// The word that stands for the atoms of the world file.
fn is_world(word: &str) -> bool
    ensures { result ≡ is_world word.now }
{
    word == "@world"
}

/// Whether one of the words stands for the atoms of the world file.
pub(crate) fn has_world(words: &[&str]) -> bool
    ensures { result ≡ has_world (map (λ s. s.now) words.now) }
{
    names_world(words)
}

fn names_world(words: &[&str]) -> bool
    ensures { result ≡ list_any (λ s. is_world s.now) words.now }
{
    words.iter().any(|word| is_world(word))
}

/// Reads the words as atoms without a block, but for the word for the world file where it may be
/// named.
pub(crate) fn read_atoms(
    alloc: Global,
    may_name_world: bool,
    words: &[&str],
) -> Result<Vec<Atom>, WordFault>
    ensures named { IfOk result (λ atoms.
        AreNamed (atom_words may_name_world (map (λ s. s.now) words.now)) atoms.items) }
    ensures fault { IfErr result (HasNoAtom
        (atom_words may_name_world (map (λ s. s.now) words.now))) }
{
    let mut atoms = Vec::new(alloc);
    for word in words {
        if is_kept(may_name_world, word) {
            atoms.push(read_atom(alloc, word)?)?;
        }
    }
    Ok(atoms)
}

/// Whether a word shall be an atom.
fn is_kept(may_name_world: bool, word: &str) -> bool
    ensures { result ≡ is_kept may_name_world word.now }
{
    !(may_name_world && is_world(word))
}

/// Reads one word as an atom without a block.
fn read_atom(alloc: Global, word: &str) -> Result<Atom, WordFault>
    ensures text { IfOk result (λ atom. word.now ≡ atom_text atom) }
    ensures free { IfOk result IsFree }
    ensures fault { IfErr result (TellsNoAtom word.now) }
{
    match Atom::parse(alloc, word) {
        Ok(atom) => match atom.block {
            Block::No => Ok(atom),
            _ => Err(bad_atom(alloc, word)),
        },
        Err(fault) => Err(refusal_of(alloc, word, fault)),
    }
}

/// What becomes of a word that is no atom.
fn refusal_of(alloc: Global, word: &str, fault: AtomFault) -> WordFault
    ensures told { TellsAtom word.now result }
    ensures memory { fault ≡ AtomFault.Memory → result ≡ WordFault.Memory }
{
    match fault {
        AtomFault::Memory => WordFault::Memory,
        _ => bad_atom(alloc, word),
    }
}

/// The refusal of a word that is no atom.
fn bad_atom(alloc: Global, word: &str) -> WordFault
    ensures { TellsAtom word.now result }
{
    match String::from_str(alloc, word) {
        Ok(word) => WordFault::BadAtom { word },
        Err(_) => WordFault::Memory,
    }
}
