ghost use Rattle.std.specs.Prelude.{◌≡◌, ℕ, List, map, IfOk, IfErr, MatchOption, OnOk, OnErr};
ghost use Rattle.pms_names.specs.Flags.{has};
ghost use Rattle.use_flags.specs.Changes.{Applies, IsChange, change_of, changed};
ghost use Rattle.use_flags.specs.Words.{EachWord, words};
ghost use Rattle.use_flags.specs.Faults.{FirstFault};
ghost use Rattle.use_flags.specs.declared.fault.UseFault.TheVariants.{Memory};

use crate::fault::UseFault;
use crate::words::next_word;
use pms_names::{Flag, Flags, NameFault};
use std::alloc::{AllocError, Global};

/// One change of a set of flags.
#[derive(Debug, Drop)]
pub enum Change {
    /// Written `flag`.
    Add(Flag),
    /// Written `-flag`.
    Take(Flag),
    /// Written `-*`: takes out every flag.
    Clear,
}

/// Reads a text of changes, such as the value of USE.
pub fn changes(alloc: Global, text: &str) -> Result<Vec<Change>, UseFault>
    ensures found { IfOk result (λ v. v.items ≡ map change_of (words text.now)) }
    ensures changes { OnOk result (EachWord IsChange text.now) }
    ensures only { EachWord IsChange text.now → IfErr result (λ e. e ≡ Memory) }
    ensures fault { IfErr result (FirstFault IsChange text.now) }
{
    let bytes = text.as_bytes();
    let mut changes = Vec::new(alloc);
    let mut from = 0;
    while let Some(word) = next_word(bytes, from) {
        let Some(change) = read_change(alloc, word.bytes)? else {
            return Err(UseFault::Item { at: word.at });
        };
        changes.push(change)?;
        from = word.at + word.bytes.len();
    }
    Ok(changes)
}

/// The change that the word is, if it is one.
pub fn read_change(alloc: Global, word: &[u8]) -> Result<Option<Change>, AllocError>
    ensures { IfOk result (λ r. MatchOption r (¬ IsChange word.now)
        (λ change. IsChange word.now × (change ≡ change_of word.now))) }
{
    if word == b"-*".as_slice() {
        return Ok(Some(Change::Clear));
    }
    let (is_taken, name) = match word {
        [b'-', name @ ..] => (true, name),
        _ => (false, word),
    };
    match Flag::from_bytes(alloc, name) {
        Ok(flag) if is_taken => Ok(Some(Change::Take(flag))),
        Ok(flag) => Ok(Some(Change::Add(flag))),
        Err(NameFault::Memory) => Err(AllocError),
        Err(_) => Ok(None),
    }
}

/// Applies the changes in their order. Where memory runs out, the flags stay as they are.
pub fn apply(flags: &mut Flags, changes: &[Change]) -> Result<(), AllocError>
    ensures ok { OnOk result (Applies changes.now flags.old flags.new) }
    ensures err { OnErr result (flags.new ≡ flags.old) }
{
    let mut changed = flags.try_clone()?;
    for change in changes {
        apply_one(&mut changed, change)?;
    }
    *flags = changed;
    Ok(())
}

/// Applies one change. Where memory runs out, the flags stay as they are.
pub fn apply_one(flags: &mut Flags, change: &Change) -> Result<(), AllocError>
    ensures ok { OnOk result ((q : List ℕ) →
        has flags.new q ≡ changed q (has flags.old q) change.now) }
    ensures err { OnErr result (flags.new ≡ flags.old) }
{
    match change {
        Change::Add(flag) => {
            let _ = flags.insert(flag.try_clone()?)?;
        }
        Change::Take(flag) => {
            let _ = flags.remove(flag);
        }
        Change::Clear => flags.clear(),
    }
    Ok(())
}
