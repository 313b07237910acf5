ghost use Rattle.std.specs.Prelude.{◌≡◌, ℕ, List, false, map, true, IfErr, IfOk, MatchBool};
ghost use Rattle.std.specs.Prelude.{MatchOption};
ghost use Rattle.vdb_law.specs.Fields.{AreFlags};
ghost use Rattle.dep_group.specs.Tokens.{IsFlag};
ghost use Rattle.dep_group.specs.Views.{spot};
ghost use Rattle.dep_group.specs.Words.{words_of};
ghost use Rattle.use_flags.specs.Items.{flag_of};
ghost use Rattle.vdb_values.specs.Values.{AddsWord, FirstFault, HasFlags, IsFault};
ghost use Rattle.vdb_values.specs.Values.{IsFlagWord, flag_in};
ghost use Rattle.vdb_values.specs.declared.fault.FlagFault.TheVariants.{Memory};

use crate::fault::FlagFault;
use dep_group::{Word, words};
use pms_names::{Flag, Flags, NameFault};
use std::alloc::{AllocError, Global};
use use_flags::flag_of;

/// The flags that the text of USE has.
pub fn read_flags(alloc: Global, text: &str) -> Result<Flags, FlagFault>
    ensures found { IfOk result (λ s. AreFlags (words_of text.now) s) }
    ensures only { (set : List (List ℕ)) → AreFlags (words_of text.now) set →
        IfErr result (λ e. e ≡ Memory) }
    ensures fault { IfErr result (FirstFault false text.now) }
{
    let words = words(alloc, text)?;
    read_each(alloc, &words, false)
}

/// The flags that the text of IUSE has. Marks of defaults are dropped.
pub fn read_known(alloc: Global, text: &str) -> Result<Flags, FlagFault>
    ensures found { IfOk result (λ s. AreFlags (map flag_of (words_of text.now)) s) }
    ensures only { (set : List (List ℕ)) → AreFlags (map flag_of (words_of text.now)) set →
        IfErr result (λ e. e ≡ Memory) }
    ensures fault { IfErr result (FirstFault true text.now) }
{
    let words = words(alloc, text)?;
    read_each(alloc, &words, true)
}

/// The flags of the words, each of which may have a mark or none may.
fn read_each(alloc: Global, words: &[Word], marked: bool) -> Result<Flags, FlagFault>
    ensures found { IfOk result (HasFlags marked (map spot words.now)) }
    ensures fault { IfErr result (IsFault marked (map spot words.now)) }
{
    let mut flags = Flags::new(alloc);
    for word in words {
        if !add_word(alloc, word.text, marked, &mut flags)? {
            return Err(FlagFault::Word { at: word.at });
        }
    }
    Ok(flags)
}

// Answers whether the word is one of a flag; where it is none, nothing changes.
fn add_word(alloc: Global, word: &str, marked: bool, flags: &mut Flags) -> Result<bool, AllocError>
    ensures { IfOk result (λ good. MatchBool good (AddsWord marked word.now flags.old flags.new)
        (¬ IsFlagWord marked word.now)) }
{
    let Some(flag) = flag_from(alloc, flag_in(word.as_bytes(), marked))? else {
        return Ok(false);
    };
    let _ = flags.insert(flag)?;
    Ok(true)
}

fn flag_in(word: &[u8], marked: bool) -> &[u8]
    ensures { result.now ≡ flag_in marked word.now }
{
    if marked { flag_of(word) } else { word }
}

fn flag_from(alloc: Global, bytes: &[u8]) -> Result<Option<Flag>, AllocError>
    ensures { IfOk result (λ r. MatchOption r (¬ IsFlag bytes.now)
        (λ flag. (flag ≡ bytes.now) × IsFlag bytes.now)) }
{
    match Flag::from_bytes(alloc, bytes) {
        Ok(flag) => Ok(Some(flag)),
        Err(NameFault::Memory) => Err(AllocError),
        Err(_) => Ok(None),
    }
}
