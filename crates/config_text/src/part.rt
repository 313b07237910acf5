ghost use Rattle.std.specs.Prelude.{◌≡◌, ◌∷◌, Bool, ℕ, List, IfOk, MatchOption, OnOk, true};
ghost use Rattle.config_text.specs.Assignments.{part_value};
ghost use Rattle.config_text.specs.Follow.{Stops};
ghost use Rattle.config_text.specs.Known.{value_of};
ghost use Rattle.config_text.specs.Reading.{Begins, Escapes, GivesPart, IsGiven, IsPiece};
ghost use Rattle.config_text.specs.Reading.{IsSign, NamesVariable, piece_value};
ghost use Rattle.config_text.specs.Values.{BeginsNoName, Escaped, backslash, dollar, is_escapable};
ghost use Rattle.config_text.specs.Values.{may_stand};

use crate::head::{behind, first, key_before, split_name};
use crate::known::Known;
use basics::NEWLINE;
use std::alloc::AllocError;

/// What a part of bare text or of double quotes gives.
pub(crate) enum Piece<'a> {
    Byte(u8),
    /// Nothing: a line that goes on.
    Break,
    /// The value of the name.
    Name(&'a [u8]),
}

/// Reads a part of bare text, or of one in double quotes, and answers what is behind it.
pub(crate) fn read_part<'a>(
    text: &'a [u8],
    quoted: bool,
    known: &Known,
    value: &mut Vec<u8>,
) -> Result<&'a [u8], AllocError>
    requires { Begins (may_stand quoted) text.now }
    ensures { IfOk result (λ more. GivesPart quoted (value_of known.now.values)
        text.now more.now value.old.items value.new.items) }
{
    let (piece, rest) = next_piece(text, quoted);
    give(piece, known, value)?;
    Ok(rest)
}

/// Puts what the piece gives behind the value.
fn give(piece: Piece, known: &Known, value: &mut Vec<u8>) -> Result<(), AllocError>
    ensures { OnOk result (IsGiven (value_of known.now.values) piece.entry
        value.old.items value.new.items) }
{
    match piece {
        Piece::Byte(byte) => value.push(byte)?,
        Piece::Break => {}
        Piece::Name(name) => value.extend_from_slice(known.get(name).as_bytes())?,
    }
    Ok(())
}

/// The piece at the head of the text, and what stands behind it.
fn next_piece(text: &[u8], quoted: bool) -> (Piece<'_>, &[u8])
    requires { Begins (may_stand quoted) text.now }
    ensures { IsPiece quoted text.now result.1.now result.0 }
{
    let Some((byte, more)) = first(text) else {
        unreachable!()
    };
    match sign_of(byte, quoted) {
        Sign::Backslash => behind_backslash(more),
        Sign::Dollar => behind_dollar(more),
        Sign::Nothing => (Piece::Byte(byte), more),
    }
}

/// A byte with a meaning of its own.
enum Sign {
    Backslash,
    Dollar,
    Nothing,
}

fn sign_of(byte: u8, quoted: bool) -> Sign
    ensures { IsSign quoted byte result }
{
    match byte {
        b'\\' if quoted => Sign::Backslash,
        b'$' => Sign::Dollar,
        _ => Sign::Nothing,
    }
}

fn behind_backslash(text: &[u8]) -> (Piece<'_>, &[u8])
    ensures { IsPiece true (backslash ∷ text.now) result.1.now result.0 }
{
    match escaped(text) {
        Some((byte, rest)) => (escaped_piece(byte), rest),
        None => (Piece::Byte(b'\\'), text),
    }
}

/// The byte of which a backslash takes the meaning, and what stands behind it.
fn escaped(text: &[u8]) -> Option<(u8, &[u8])>
    ensures { MatchOption result (Stops is_escapable text.now)
        (λ r. Escapes text.now r.0 r.1.now) }
{
    match first(text) {
        Some((byte, rest)) if is_escapable(byte) => Some((byte, rest)),
        _ => None,
    }
}

fn escaped_piece<'a>(byte: u8) -> Piece<'a>
    ensures { (values : List ℕ → List ℕ) → part_value values (Escaped byte) ≡
        piece_value values result }
{
    if byte == NEWLINE {
        Piece::Break
    } else {
        Piece::Byte(byte)
    }
}

fn is_escapable(byte: u8) -> bool
    ensures { result ≡ is_escapable byte }
{
    byte == NEWLINE || byte == b'"' || byte == b'$' || byte == b'\\'
}

fn behind_dollar(text: &[u8]) -> (Piece<'_>, &[u8])
    ensures { (quoted : Bool) → IsPiece quoted (dollar ∷ text.now) result.1.now result.0 }
{
    match variable(text) {
        Some((name, rest)) => (Piece::Name(name), rest),
        None => (Piece::Byte(b'$'), text),
    }
}

/// What a dollar sign in front of the text names, and what stands behind that.
fn variable(text: &[u8]) -> Option<(&[u8], &[u8])>
    ensures { MatchOption result (BeginsNoName text.now)
        (λ r. NamesVariable text.now r.0.now r.1.now) }
{
    match behind(b'{', text) {
        Some(inner) => key_before(b'}', inner),
        None => split_name(text),
    }
}
