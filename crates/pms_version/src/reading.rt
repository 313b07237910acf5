ghost use Rattle.pms_version.specs.declared.limits.TheConstants.{MOST_BYTES, MOST_DIGITS};
ghost use Rattle.pms_version.specs.Inside.{kind_of};
ghost use Rattle.pms_version.specs.Limits.{HasShortNumbers};
ghost use Rattle.pms_version.specs.Steps.{HasReadLetter, HasReadNumbers, HasReadSuffixes};
ghost use Rattle.std.specs.Option.{option_to_list};
ghost use Rattle.std.specs.Prelude.{◌≡◌, ◌≤◌, ◌++◌, IfOk, List, drop, false, length, slice_index};
ghost use Rattle.std.specs.Prelude.{ℕ};
ghost use Rattle.basics.specs.Bytes.{is_digit, is_lower};
ghost use Rattle.pms_grammar.specs.Grammar.{AreDigits, IsVersion, IsVersionText, VersionValue};
ghost use Rattle.pms_grammar.specs.Grammar.{kind_at};
ghost use Rattle.pms_grammar.specs.Grammar.{spell_revision, spelling, word};

use crate::number::Number;
use crate::suffix::{Kind, Suffix};
use crate::version::Version;
use basics::{Text, is_digit, is_lower};
use std::alloc::{AllocError, Global};

/// Reads a text that is known to be a version's, within the limits.
pub(crate) fn read(alloc: Global, text: &str) -> Result<Version, AllocError>
    requires version { IsVersionText text.now }
    requires length { length text.now ≤ MOST_BYTES }
    requires short { HasShortNumbers text.now }
    ensures { (p : VersionValue) → IsVersion p → text.now ≡ spelling p → IfOk result (λ v. v ≡ p) }
{
    let (first, behind) = split_digits(text.as_bytes());
    let first = Number::new(alloc, first)?;
    let (more, behind) = match read_numbers(alloc, behind) {
        Ok(read) => read,
        Err(error) => return Err(error),
    };
    let (letter, behind) = read_letter(behind);
    let (suffixes, behind) = match read_suffixes(alloc, behind) {
        Ok(read) => read,
        Err(error) => return Err(error),
    };
    let revision = read_revision(alloc, behind)?;
    let text = Text::new(alloc, text)?;
    Ok(Version {
        text,
        first,
        more,
        letter,
        suffixes,
        revision,
    })
}

/// The byte at a place, or 0 past the end.
fn byte_at(bytes: &[u8], at: usize) -> u8
    ensures { result ≡ slice_index bytes.now at }
{
    if at < bytes.len() { bytes[at] } else { 0 }
}

/// All but the first `count` bytes.
fn skip(bytes: &[u8], count: usize) -> &[u8]
    ensures { result.now ≡ drop count bytes.now }
{
    if count < bytes.len() {
        bytes.split_at(count).1
    } else {
        bytes.split_at(bytes.len()).1
    }
}

/// The digits at the beginning, and what follows.
fn split_digits(bytes: &[u8]) -> (&[u8], &[u8])
    requires { HasShortNumbers bytes.now }
    ensures digits { AreDigits result.0.now }
    ensures short { length result.0.now ≤ MOST_DIGITS }
    ensures whole { bytes.now ≡ result.0.now ++ result.1.now }
    ensures ends { is_digit (slice_index result.1.now 0) ≡ false }
    ensures rest { HasShortNumbers result.1.now }
{
    let mut end = 0;
    while end < bytes.len() && is_digit(bytes[end]) {
        end += 1;
    }
    bytes.split_at(end)
}

/// The numbers behind dots, and what follows.
fn read_numbers(alloc: Global, bytes: &[u8]) -> Result<(Vec<Number>, &[u8]), AllocError>
    requires { HasShortNumbers bytes.now }
    ensures numbers { IfOk result (λ r. HasReadNumbers bytes.now r.0.items r.1.now) }
    ensures rest { IfOk result (λ r. HasShortNumbers r.1.now) }
{
    let mut numbers = Vec::new(alloc);
    let mut behind = bytes;
    'dots: while byte_at(behind, 0) == b'.' {
        let (digits, rest) = split_digits(skip(behind, 1));
        let number = Number::new(alloc, digits)?;
        numbers.push(number)?;
        behind = rest;
    }
    Ok((numbers, behind))
}

/// The letter, where one stands, and what follows.
fn read_letter(bytes: &[u8]) -> (Option<u8>, &[u8])
    requires { HasShortNumbers bytes.now }
    ensures letter { HasReadLetter bytes.now (option_to_list result.0) result.1.now }
    ensures rest { HasShortNumbers result.1.now }
{
    let first = byte_at(bytes, 0);
    if is_lower(first) {
        (Some(first), skip(bytes, 1))
    } else {
        (None, bytes)
    }
}

/// The kind of suffix whose word begins the bytes.
fn kind_at(bytes: &[u8]) -> Kind
    ensures { kind_of result ≡ kind_at bytes.now }
{
    let first = byte_at(bytes, 0);
    if first == b'a' {
        Kind::Alpha
    } else if first == b'b' {
        Kind::Beta
    } else if first == b'r' {
        Kind::Rc
    } else if byte_at(bytes, 1) == b'r' {
        Kind::Pre
    } else {
        Kind::P
    }
}

fn word_len(kind: Kind) -> usize
    ensures { result ≡ length (word (kind_of kind)) }
{
    match kind {
        Kind::Alpha => 5,
        Kind::Beta => 4,
        Kind::Pre => 3,
        Kind::Rc => 2,
        Kind::P => 1,
    }
}

/// The suffixes, and what follows.
fn read_suffixes(alloc: Global, bytes: &[u8]) -> Result<(Vec<Suffix>, &[u8]), AllocError>
    requires { HasShortNumbers bytes.now }
    ensures suffixes { IfOk result (λ r. HasReadSuffixes bytes.now r.0.items r.1.now) }
    ensures rest { IfOk result (λ r. HasShortNumbers r.1.now) }
{
    let mut suffixes = Vec::new(alloc);
    let mut behind = bytes;
    'underscores: while byte_at(behind, 0) == b'_' {
        let tail = skip(behind, 1);
        let kind = kind_at(tail);
        let (digits, rest) = split_digits(skip(tail, word_len(kind)));
        let number = Number::new(alloc, digits)?;
        suffixes.push(Suffix { kind, number })?;
        behind = rest;
    }
    Ok((suffixes, behind))
}

/// The number of the revision, or none.
fn read_revision(alloc: Global, bytes: &[u8]) -> Result<Number, AllocError>
    requires { HasShortNumbers bytes.now }
    ensures { (r : List ℕ) → AreDigits r → bytes.now ≡ spell_revision r → IfOk result (λ n. n ≡ r) }
{
    let (digits, _) = split_digits(skip(bytes, 2));
    Number::new(alloc, digits)
}
