ghost use Rattle.std.specs.Prelude.{◌≡◌};
ghost use Rattle.std.specs.Option.{is_none};
ghost use Rattle.profile_folders.specs.Stacks.{taken_back};
ghost use Rattle.visible_offers.specs.Words.{said, said_by, said_of};

use crate::word::FlagWord;
use pms_names::Flag;
use profile_folders::{taken_back, unsigned};

/// What the last of the words that speaks of the flag says of it: that it is on, or that it is off.
pub(crate) fn said(words: &[FlagWord], flag: &Flag) -> Option<bool>
    ensures { result ≡ said words.now flag.now }
{
    let mut said = None;
    for word in words {
        said = said_by(word, flag).or(said);
    }
    said
}

fn said_by(word: &FlagWord, flag: &Flag) -> Option<bool>
    ensures { result ≡ said_by word.now flag.now }
{
    let text = flag.text().as_bytes();
    match text.strip_prefix(word.prefix.as_str().as_bytes()) {
        Some(item) => said_of(word.word.as_str(), item),
        None => None,
    }
}

/// What the word says of the flag with this item, if it speaks of it.
fn said_of(word: &str, item: &[u8]) -> Option<bool>
    ensures { result ≡ said_of word.now item.now }
{
    if word == "-*" {
        return Some(false);
    }
    if item == unsigned(word).as_bytes() {
        return Some(is_added(word));
    }
    None
}

/// Whether no hyphen stands before the word.
fn is_added(word: &str) -> bool
    ensures { result ≡ is_none (taken_back word.now) }
{
    match taken_back(word) {
        Some(_) => false,
        None => true,
    }
}
