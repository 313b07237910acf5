ghost use Rattle.std.specs.Prelude.{◌≡◌, ℕ, List, IfOk, MatchOption};
ghost use Rattle.vdb_law.specs.Fields.{AreSlots};
ghost use Rattle.dep_group.specs.Words.{words_of};
ghost use Rattle.pkg_state.specs.Eapis.{eapi_text};
ghost use Rattle.vdb_values.specs.Values.{IsAlone, SaysNoEapi, SaysNoSlots};

use dep_group::words;
use pkg_state::Eapi;
use pms_slot::SlotValue;
use std::alloc::{AllocError, Global};

/// The edition that the text of EAPI says, if it is one that is read.
pub fn read_eapi(alloc: Global, text: &str) -> Result<Option<Eapi>, AllocError>
    ensures { IfOk result (λ r. MatchOption r (SaysNoEapi text.now)
        (λ e. IsAlone text.now (eapi_text e))) }
{
    match only_word(alloc, text)? {
        Some(word) => Ok(Eapi::from_text(word)),
        None => Ok(None),
    }
}

/// What the text of SLOT says.
pub fn read_slots(alloc: Global, text: &str) -> Result<Option<SlotValue>, AllocError>
    ensures { IfOk result (λ r. MatchOption r (SaysNoSlots text.now)
        (λ v. AreSlots (words_of text.now) v.slot v.subslot)) }
{
    match only_word(alloc, text)? {
        Some(word) => SlotValue::read(alloc, word.as_bytes()),
        None => Ok(None),
    }
}

/// The one word of a text that has just one.
fn only_word(alloc: Global, text: &str) -> Result<Option<&str>, AllocError>
    ensures { IfOk result (λ r. MatchOption r ((w : List ℕ) → ¬ IsAlone text.now w)
        (λ w. IsAlone text.now w.now)) }
{
    let words = words(alloc, text)?;
    match words.as_slice() {
        [word] => Ok(Some(word.text)),
        _ => Ok(None),
    }
}
