ghost use Rattle.std.specs.Prelude.{◌≡◌, ◌↔◌, ℕ, List, IfOk, IfErr, OnOk, IsTrue};
ghost use Rattle.std.specs.Bool.{OnTrue};
ghost use Rattle.pms_names.specs.Flags.{has};
ghost use Rattle.use_flags.specs.Items.{AddsFlag, IsItem, SetsDefault};
ghost use Rattle.use_flags.specs.Items.{flag_of, is_on, last_is_on, names_flag};
ghost use Rattle.use_flags.specs.Words.{EachWord, words};
ghost use Rattle.use_flags.specs.Faults.{FirstFault};
ghost use Rattle.use_flags.specs.declared.fault.UseFault.TheVariants.{Memory};

use crate::fault::UseFault;
use crate::words::next_word;
use pms_names::{Flag, Flags, NameFault};
use std::alloc::{AllocError, Global};

/// The flags that a package knows, and those of them that are on by default.
#[derive(Debug, Drop)]
pub struct Iuse {
    pub flags: Flags,
    pub on: Flags,
}

impl Iuse {
    /// Reads the text of IUSE. A flag may have several items, of which the last counts.
    pub fn parse(alloc: Global, text: &str) -> Result<Iuse, UseFault>
        ensures flags { IfOk result (λ r. (q : List ℕ) →
            has r.flags q ≡ names_flag (words text.now) q) }
        ensures on { IfOk result (λ r. (q : List ℕ) → has r.on q ≡ last_is_on (words text.now) q) }
        ensures items { OnOk result (EachWord IsItem text.now) }
        ensures only { EachWord IsItem text.now → IfErr result (λ e. e ≡ Memory) }
        ensures fault { IfErr result (FirstFault IsItem text.now) }
    {
        let bytes = text.as_bytes();
        let mut iuse = Iuse {
            flags: Flags::new(alloc),
            on: Flags::new(alloc),
        };
        let mut from = 0;
        while let Some(word) = next_word(bytes, from) {
            if !iuse.add_item(alloc, word.bytes)? {
                return Err(UseFault::Item { at: word.at });
            }
            from = word.at + word.bytes.len();
        }
        Ok(iuse)
    }

    // Answers whether the word is an item; where it is none, nothing changes.
    fn add_item(&mut self, alloc: Global, word: &[u8]) -> Result<bool, AllocError>
        ensures item { IfOk result (λ added. IsTrue added ↔ IsItem word.now) }
        ensures flags { IfOk result (λ added.
            OnTrue added (AddsFlag self.old.flags self.new.flags word.now)) }
        ensures on { IfOk result (λ added.
            OnTrue added (SetsDefault self.old.on self.new.on word.now)) }
    {
        let flag = match Flag::from_bytes(alloc, flag_of(word)) {
            Ok(flag) => flag,
            Err(NameFault::Memory) => return Err(AllocError),
            Err(_) => return Ok(false),
        };
        let _ = self.flags.insert(flag.try_clone()?)?;
        let _ = if is_on(word) {
            self.on.insert(flag)?
        } else {
            self.on.remove(&flag)
        };
        Ok(true)
    }
}

/// The item without its sign.
pub fn flag_of(word: &[u8]) -> &[u8]
    ensures { result.now ≡ flag_of word.now }
{
    match word {
        [b'+' | b'-', flag @ ..] => flag,
        _ => word,
    }
}

fn is_on(word: &[u8]) -> bool
    ensures { result ≡ is_on word.now }
{
    match word {
        [first, ..] => *first == b'+',
        [] => false,
    }
}
