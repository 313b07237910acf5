ghost use Rattle.std.specs.Prelude.{◌≡◌, ◌↔◌, ◌⊎◌, ◌∷◌, [], IfErr, IfOk, IsTrue, List};
ghost use Rattle.std.specs.Prelude.{map, ℕ};
ghost use Rattle.std.specs.List.{AllByRecursion};
ghost use Rattle.dep_atom.specs.declared.atom.Atom.{Atom as AtomValue};
ghost use Rattle.dep_atom.specs.declared.atom.Block.TheVariants.{No};
ghost use Rattle.dep_atom.specs.declared.fault.AtomFault.TheVariants as atoms;
ghost use Rattle.dep_group.specs.Views.{spot};
ghost use Rattle.dep_group.specs.Words.{spaced_after, texts};
ghost use Rattle.use_flags.specs.Changes.{IsChange};
ghost use Rattle.profile_lines.specs.Faults.{IsBadBy, NamesNothing};
ghost use Rattle.profile_lines.specs.Items.{AreChanges, IsFlagLine, IsKeywordLine, IsPlainAtom};
ghost use Rattle.profile_lines.specs.Items.{IsRule, NamesPackages, Says, is_signed};
ghost use Rattle.profile_lines.specs.declared.fault.LineFault.TheVariants.{Memory, NoAtom, NoChange};
ghost use Rattle.profile_lines.specs.declared.item.Form.TheVariants as forms;

use crate::fault::LineFault;
use crate::item::{Entry, Form, Item};
use basics::Text;
use dep_atom::{Atom, AtomFault, Block};
use dep_group::{Word, push_word};
use profile_folders::unsigned;
use std::alloc::{AllocError, Global};
use use_flags::{Change, read_change};

/// What the words of a line of this form say.
pub(crate) fn read_words(alloc: Global, form: Form, words: &[Word]) -> Result<Entry, LineFault>
    ensures found { IfOk result (Says form (texts (map spot words.now))) }
    ensures fault { IfErr result (λ e. (e ≡ Memory) ⊎ IsBadBy form (texts (map spot words.now)) e) }
{
    match form {
        Form::Flags => flag_line(alloc, words),
        Form::Rules => rule(alloc, words),
        Form::Masks if words.len() > 1 => Err(LineFault::NoAtom),
        Form::Masks => rule(alloc, words),
        Form::Keywords => keyword_line(alloc, words),
    }
}

/// Changes of flags, for every package.
fn flag_line(alloc: Global, words: &[Word]) -> Result<Entry, LineFault>
    ensures found { IfOk result (IsFlagLine (texts (map spot words.now))) }
    ensures fault { IfErr result (λ e. (e ≡ Memory)
        ⊎ IsBadBy forms.Flags (texts (map spot words.now)) e) }
{
    let changes = changes_of(alloc, words)?;
    let text = spaced(alloc, "", words)?;
    Ok(Entry {
        takes_back: false,
        item: Item {
            text,
            atom: None,
            changes,
            keywords: Vec::new(alloc),
        },
    })
}

/// An atom and changes of flags.
fn rule(alloc: Global, words: &[Word]) -> Result<Entry, LineFault>
    ensures found { IfOk result (IsRule (texts (map spot words.now))) }
    ensures fault { IfErr result (λ e. (e ≡ Memory)
        ⊎ IsBadBy forms.Rules (texts (map spot words.now)) e) }
{
    let Some((first, rest)) = words.split_first() else {
        return Err(LineFault::NoAtom);
    };
    let mut entry = named(alloc, first, rest)?;
    entry.item.changes = changes_of(alloc, rest)?;
    Ok(entry)
}

/// An atom and keywords.
fn keyword_line(alloc: Global, words: &[Word]) -> Result<Entry, LineFault>
    ensures found { IfOk result (IsKeywordLine (texts (map spot words.now))) }
    ensures fault { IfErr result (λ e. (e ≡ Memory)
        ⊎ IsBadBy forms.Keywords (texts (map spot words.now)) e) }
{
    let Some((first, rest)) = words.split_first() else {
        return Err(LineFault::NoAtom);
    };
    let mut entry = named(alloc, first, rest)?;
    entry.item.keywords = keywords_of(alloc, rest)?;
    Ok(entry)
}

/// The atom that the first word is. Nothing is said yet of what stands behind it.
fn named(alloc: Global, first: &Word, rest: &[Word]) -> Result<Entry, LineFault>
    ensures found { IfOk result (NamesPackages (texts (map spot (first.now ∷ rest.now)))
        (texts (map spot rest.now))) }
    ensures changes { IfOk result (λ entry. entry.item.changes.items ≡ []) }
    ensures keywords { IfOk result (λ entry. entry.item.keywords.items ≡ []) }
    ensures fault { IfErr result (λ e. (e ≡ Memory)
        ⊎ ((e ≡ NoAtom) × NamesNothing (texts (map spot (first.now ∷ rest.now))))) }
{
    let word = unsigned(first.text);
    let atom = plain_atom(alloc, word)?;
    let text = spaced(alloc, word, rest)?;
    Ok(Entry {
        takes_back: is_signed(first.text.as_bytes()),
        item: Item {
            text,
            atom: Some(atom),
            changes: Vec::new(alloc),
            keywords: Vec::new(alloc),
        },
    })
}

fn is_signed(word: &[u8]) -> bool
    ensures { result ≡ is_signed word.now }
{
    match word {
        [first, ..] => *first == b'-',
        [] => false,
    }
}

/// The atom that the word is. It may have no block.
fn plain_atom(alloc: Global, word: &str) -> Result<Atom, LineFault>
    ensures found { IfOk result (IsPlainAtom word.now) }
    ensures fault { IfErr result (λ e. (e ≡ Memory)
        ⊎ ((e ≡ NoAtom) × ((atom : AtomValue) → ¬ IsPlainAtom word.now atom))) }
{
    match Atom::parse(alloc, word) {
        Ok(atom) if is_unblocked(&atom) => Ok(atom),
        Ok(_) => Err(LineFault::NoAtom),
        Err(fault) => Err(no_atom(fault)),
    }
}

/// Whether the atom has no block.
fn is_unblocked(atom: &Atom) -> bool
    ensures { IsTrue result ↔ (atom.now.block ≡ No) }
{
    match atom.block {
        Block::No => true,
        Block::Weak | Block::Strong => false,
    }
}

/// What it is called that a word is no atom.
fn no_atom(fault: AtomFault) -> LineFault
    ensures { ((fault ≡ atoms.Memory) × (result ≡ Memory))
        ⊎ ((¬ (fault ≡ atoms.Memory)) × (result ≡ NoAtom)) }
{
    match fault {
        AtomFault::Memory => LineFault::Memory,
        AtomFault::Name
        | AtomFault::Version
        | AtomFault::OperatorWithoutVersion
        | AtomFault::VersionWithoutOperator
        | AtomFault::BadStar
        | AtomFault::BadSlot
        | AtomFault::BadUse { .. } => LineFault::NoAtom,
    }
}

/// The changes that the words are.
fn changes_of(alloc: Global, words: &[Word]) -> Result<Vec<Change>, LineFault>
    ensures found { IfOk result (λ v. AreChanges (texts (map spot words.now)) v.items) }
    ensures fault { IfErr result (λ e. (e ≡ Memory)
        ⊎ ((e ≡ NoChange) × (¬ AllByRecursion IsChange (texts (map spot words.now))))) }
{
    let mut changes = Vec::new(alloc);
    for word in words {
        let Some(change) = read_change(alloc, word.text.as_bytes())? else {
            return Err(LineFault::NoChange);
        };
        changes.push(change)?;
    }
    Ok(changes)
}

/// The words as they are.
fn keywords_of(alloc: Global, words: &[Word]) -> Result<Vec<Text>, AllocError>
    ensures { IfOk result (λ v. v.items ≡ texts (map spot words.now)) }
{
    let mut keywords = Vec::new(alloc);
    for word in words {
        keywords.push(Text::new(alloc, word.text)?)?;
    }
    Ok(keywords)
}

/// The first word and the others, with one space between each two. There may be no first one.
fn spaced(alloc: Global, first: &str, others: &[Word]) -> Result<Text, AllocError>
    ensures { IfOk result (λ t. t ≡ spaced_after first.now (texts (map spot others.now))) }
{
    let mut text = String::from_str(alloc, first)?;
    for word in others {
        push_word(&mut text, "", word.text, "")?;
    }
    Ok(Text::from_string(text))
}
