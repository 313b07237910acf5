ghost use Rattle.std.specs.Prelude.{◌≡◌, ◌↔◌, true, IfOk, IsTrue, map};
ghost use Rattle.std.specs.List.{AllByRecursion};
ghost use Rattle.config_text.specs.Values.{IsKey, begins_key, is_key_byte};
ghost use Rattle.dep_group.specs.Views.{spot};
ghost use Rattle.dep_group.specs.Words.{texts};
ghost use Rattle.use_flags.specs.Changes.{IsChange};
ghost use Rattle.config_vars.specs.Judged.{AreItemsOf, AreWordsOf, IsItemOf, IsWordOf};

use crate::stack::flag_of;
use dep_group::{Word, words};
use pms_names::Flag;
use profile_folders::unsigned;
use std::alloc::{AllocError, Global};

/// Which words a variable may have.
#[derive(Clone, Copy)]
pub(crate) enum Grammar {
    /// Changes of flags, as those of USE.
    Changes,
    /// The names of variables, as those of USE_EXPAND.
    Keys,
}

/// Whether each word of the value is one that such a variable may have.
pub(crate) fn are_words_of(alloc: Global, grammar: Grammar, value: &str) -> Result<bool, AllocError>
    ensures { IfOk result (λ good. IsTrue good ↔ AreWordsOf grammar value.now) }
{
    let found = words(alloc, value)?;
    Ok(are_each_of(grammar, &found))
}

fn are_each_of(grammar: Grammar, words: &[Word]) -> bool
    ensures { IsTrue result ↔ AllByRecursion (IsWordOf grammar) (texts (map spot words.now)) }
{
    for word in words {
        if !is_word_of(grammar, word.text) {
            return false;
        }
    }
    true
}

fn is_word_of(grammar: Grammar, word: &str) -> bool
    ensures { IsTrue result ↔ IsWordOf grammar word.now }
{
    match grammar {
        Grammar::Changes => is_change(word),
        Grammar::Keys => word == "-*" || is_key(unsigned(word).as_bytes()),
    }
}

fn is_change(word: &str) -> bool
    ensures { IsTrue result ↔ IsChange word.now }
{
    word == "-*" || Flag::is_one(unsigned(word).as_bytes())
}

/// Whether each word of the value is an item of the expanded variable.
pub(crate) fn are_items_of(alloc: Global, variable: &str, value: &str) -> Result<bool, AllocError>
    ensures { IfOk result (λ good. IsTrue good ↔ AreItemsOf variable.now value.now) }
{
    let found = words(alloc, value)?;
    are_each_item(alloc, variable, &found)
}

fn are_each_item(alloc: Global, variable: &str, words: &[Word]) -> Result<bool, AllocError>
    ensures { IfOk result (λ good. IsTrue good ↔
        AllByRecursion (IsItemOf variable.now) (texts (map spot words.now))) }
{
    for word in words {
        if !is_item_of(alloc, variable, word.text)? {
            return Ok(false);
        }
    }
    Ok(true)
}

fn is_item_of(alloc: Global, variable: &str, word: &str) -> Result<bool, AllocError>
    ensures { IfOk result (λ good. IsTrue good ↔ IsItemOf variable.now word.now) }
{
    let flag = flag_of(alloc, variable, unsigned(word))?;
    Ok(word == "-*" || Flag::is_one(flag.as_str().as_bytes()))
}

fn is_key(bytes: &[u8]) -> bool
    ensures { IsTrue result ↔ IsKey bytes.now }
{
    match bytes {
        [first, rest @ ..] => begins_key(*first) && are_key_bytes(rest),
        [] => false,
    }
}

fn begins_key(byte: u8) -> bool
    ensures { result ≡ begins_key byte }
{
    byte.is_ascii_alphabetic() || byte == b'_'
}

fn are_key_bytes(bytes: &[u8]) -> bool
    ensures { IsTrue result ↔ AllByRecursion (λ b. is_key_byte b ≡ true) bytes.now }
{
    bytes.iter().all(|b| is_key_byte(*b))
}

fn is_key_byte(byte: u8) -> bool
    ensures { result ≡ is_key_byte byte }
{
    begins_key(byte) || basics::is_digit(byte)
}
