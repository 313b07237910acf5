ghost use Rattle.std.specs.Prelude.{◌≡◌, [], ◌∷◌, IfOk, MatchOption, decimal, map, option_map};
ghost use Rattle.pms_names.specs.Names.{IsName};
ghost use Rattle.dep_atom.specs.Ids.{IsId, id_text};
ghost use Rattle.plan_text.specs.Numbers.{AreNumbers, IsNumber};
ghost use Rattle.plan_text.specs.Spelled.{IsNoSingle, Reads, SplitsAt};
ghost use Rattle.plan_text.specs.Words.{AreFlags, IsBare, IsBind, IsRemoval, addition_words};
ghost use Rattle.plan_text.specs.Words.{bind_word, is_before, removal_word, rise};

use crate::flags::set_of;
use crate::number::read_number;
use crate::plan::Removal;
use build_pool::{Binds, Order};
use dep_atom::{AtomFault, Bind, PackageId};
use pms_names::{Flag, NameFault, NameKind, NameOf};
use std::alloc::{AllocError, Global};

/// The first word, and those behind it.
pub(crate) fn first_word<'a>(words: &'a [&'a str]) -> Option<(&'a str, &'a [&'a str])>
    ensures { MatchOption result (map (λ w. w.now) words.now ≡ [])
        (λ p. map (λ w. w.now) words.now ≡ p.0.now ∷ map (λ w. w.now) p.1.now) }
{
    match words {
        [first, others @ ..] => Some((first, others)),
        [] => None,
    }
}

/// The word, where there is one and no other.
pub(crate) fn only_word<'a>(words: &[&'a str]) -> Option<&'a str>
    ensures { MatchOption result (IsNoSingle (map (λ w. w.now) words.now))
        (λ w. map (λ w. w.now) words.now ≡ w.now ∷ []) }
{
    match words {
        [word] => Some(word),
        _ => None,
    }
}

/// The numbers that words write.
pub(crate) fn read_numbers(alloc: Global, words: &[&str]) -> Result<Option<Vec<u32>>, AllocError>
    ensures { IfOk result (λ r. Reads AreNumbers (map decimal) (map (λ w. w.now) words.now)
        (option_map (λ v. v.items) r)) }
{
    if words.is_empty() {
        return Ok(None);
    }
    let mut numbers = Vec::new(alloc);
    for word in words {
        let Some(number) = read_number(word) else {
            return Ok(None);
        };
        numbers.push(number)?;
    }
    Ok(Some(numbers))
}

/// A package and a slot, as `category/package-version:slot`.
pub(crate) fn read_removal(alloc: Global, word: &str) -> Result<Option<Removal>, AllocError>
    ensures { IfOk result (Reads IsRemoval removal_word word.now) }
{
    let Some((id, slot)) = split_at_colon(word) else {
        return Ok(None);
    };
    let Some(id) = read_id(alloc, id)? else {
        return Ok(None);
    };
    let Some(slot) = read_part(alloc, slot)? else {
        return Ok(None);
    };
    Ok(Some(Removal { id, slot }))
}

/// A package and its slots, as `category/package-version:slot/subslot`, and flags behind it. It has
/// no binds yet.
pub(crate) fn read_addition(alloc: Global, words: &[&str]) -> Result<Option<Order>, AllocError>
    ensures { IfOk result (Reads IsBare addition_words (map (λ w. w.now) words.now)) }
{
    let Some((word, flags)) = first_word(words) else {
        return Ok(None);
    };
    let Some((id, slots)) = split_at_colon(word) else {
        return Ok(None);
    };
    let Some(id) = read_id(alloc, id)? else {
        return Ok(None);
    };
    let Some(Bind { slot, subslot }) = read_bind(alloc, slots)? else {
        return Ok(None);
    };
    let Some(flags) = read_flags(alloc, flags)? else {
        return Ok(None);
    };
    let enabled = set_of(alloc, &flags)?;
    Ok(Some(Order {
        id,
        slot,
        subslot,
        enabled,
        binds: Binds::new(Vec::new(alloc)),
    }))
}

/// A slot and a subslot, as `slot/subslot`.
pub(crate) fn read_bind(alloc: Global, word: &str) -> Result<Option<Bind>, AllocError>
    ensures { IfOk result (Reads IsBind bind_word word.now) }
{
    let Some((slot, subslot)) = split_at_slash(word) else {
        return Ok(None);
    };
    let Some(slot) = read_part(alloc, slot)? else {
        return Ok(None);
    };
    let Some(subslot) = read_part(alloc, subslot)? else {
        return Ok(None);
    };
    Ok(Some(Bind { slot, subslot }))
}

/// Flags in rising order.
fn read_flags(alloc: Global, words: &[&str]) -> Result<Option<Vec<Flag>>, AllocError>
    ensures { IfOk result (λ r. Reads AreFlags (λ flags. flags) (map (λ w. w.now) words.now)
        (option_map (λ v. v.items) r)) }
{
    if !rise(words) {
        return Ok(None);
    }
    let mut flags = Vec::new(alloc);
    for word in words {
        let Some(flag) = read_part(alloc, word)? else {
            return Ok(None);
        };
        flags.push(flag)?;
    }
    Ok(Some(flags))
}

/// Whether each text stands before the next one in byte order.
fn rise(texts: &[&str]) -> bool
    ensures { result ≡ rise (map (λ t. t.now) texts.now) }
{
    let mut rest = texts;
    while let [first, others @ ..] = rest {
        if let [second, ..] = others {
            if !is_before(first, second) {
                return false;
            }
        }
        rest = others;
    }
    true
}

/// Whether the one text stands before the other in byte order.
pub(crate) fn is_before(text: &str, other: &str) -> bool
    ensures { result ≡ is_before text.now other.now }
{
    text.cmp(other).is_lt()
}

/// A package as `category/package-version`.
fn read_id(alloc: Global, text: &str) -> Result<Option<PackageId>, AllocError>
    ensures { IfOk result (Reads IsId id_text text.now) }
{
    let Some((category, pf)) = split_at_slash(text) else {
        return Ok(None);
    };
    match PackageId::parse(alloc, category, pf) {
        Ok(id) => Ok(Some(id)),
        Err(AtomFault::Memory) => Err(AllocError),
        Err(_) => Ok(None),
    }
}

fn read_part<K: NameKind>(alloc: Global, text: &str) -> Result<Option<NameOf<K>>, AllocError>
    ensures { IfOk result (Reads (IsName K.kind) (λ name. name) text.now) }
{
    match NameOf::parse(alloc, text) {
        Ok(name) => Ok(Some(name)),
        Err(NameFault::Memory) => Err(AllocError),
        Err(_) => Ok(None),
    }
}

fn split_at_colon(text: &str) -> Option<(&str, &str)>
    ensures { SplitsAt 58 text.now result }
{
    text.split_once(':')
}

fn split_at_slash(text: &str) -> Option<(&str, &str)>
    ensures { SplitsAt 47 text.now result }
{
    text.split_once('/')
}
