ghost use Rattle.std.specs.Prelude.{◌≡◌, ◌∷◌, ℕ, List, IfOk, MatchBool, MatchOption};
ghost use Rattle.config_text.specs.AssignFaults.{IsOpen};
ghost use Rattle.config_text.specs.Assignments.{is_solid};
ghost use Rattle.config_text.specs.Follow.{Stops};
ghost use Rattle.config_text.specs.Known.{value_of};
ghost use Rattle.config_text.specs.Reading.{Begins, GivesRun, ReadsValue};
ghost use Rattle.config_text.specs.Values.{double_quote, single_quote};

use crate::head::{behind, first};
use crate::known::Known;
use crate::part::read_part;
use crate::stretch::{Stretch, cut};
use basics::is_blank;
use std::alloc::{AllocError, Global};

/// Reads what stands behind a single quote, and answers what is behind the second one.
fn read_single<'a>(text: &'a [u8], value: &mut Vec<u8>) -> Result<Option<&'a [u8]>, AllocError>
    ensures { IfOk result (λ r. MatchOption r (IsOpen (single_quote ∷ text.now))
        (λ more. (named : List ℕ → List ℕ) → GivesRun named (single_quote ∷ text.now)
        more.now value.old.items value.new.items)) }
{
    let (inner, rest) = cut(Stretch::Single, text);
    let Some(more) = behind(b'\'', rest) else {
        return Ok(None);
    };
    value.extend_from_slice(inner)?;
    Ok(Some(more))
}

/// Reads what stands behind a double quote, and answers what is behind the second one.
fn read_double<'a>(
    text: &'a [u8],
    known: &Known,
    value: &mut Vec<u8>,
) -> Result<Option<&'a [u8]>, AllocError>
    ensures { IfOk result (λ r. MatchOption r (IsOpen (double_quote ∷ text.now))
        (λ more. GivesRun (value_of known.now.values) (double_quote ∷ text.now)
        more.now value.old.items value.new.items)) }
{
    let mut rest = text;
    while !rest.is_empty() {
        if let Some(more) = behind(b'"', rest) {
            return Ok(Some(more));
        }
        rest = read_part(rest, true, known, value)?;
    }
    Ok(None)
}

/// Reads a run of a value, and answers what is behind it, or nothing where a quote is open.
fn read_run<'a>(
    text: &'a [u8],
    known: &Known,
    value: &mut Vec<u8>,
) -> Result<Option<&'a [u8]>, AllocError>
    requires { Begins is_solid text.now }
    ensures { IfOk result (λ r. MatchOption r (IsOpen text.now)
        (λ more. GivesRun (value_of known.now.values) text.now more.now
        value.old.items value.new.items)) }
{
    if let Some(inner) = behind(b'\'', text) {
        return read_single(inner, value);
    }
    if let Some(inner) = behind(b'"', text) {
        return read_double(inner, known, value);
    }
    Ok(Some(read_part(text, false, known, value)?))
}

/// What stands behind the runs of a value: the end of the value, or a quote that is open.
pub(crate) enum ValueEnd<'a> {
    Closed(&'a [u8]),
    Open(&'a [u8]),
}

/// Reads the runs at the head of the text into the value.
pub(crate) fn read_value<'a>(
    text: &'a [u8],
    known: &Known,
    value: &mut Vec<u8>,
) -> Result<ValueEnd<'a>, AllocError>
    ensures { IfOk result (ReadsValue (value_of known.now.values) text.now
        value.old.items value.new.items) }
{
    let mut rest = text;
    while has_run(rest) {
        match read_run(rest, known, value)? {
            Some(more) => rest = more,
            None => return Ok(ValueEnd::Open(rest)),
        }
    }
    Ok(ValueEnd::Closed(rest))
}

/// Whether a run begins the text: it isn't at its end, and not at white space.
fn has_run(text: &[u8]) -> bool
    ensures { MatchBool result (Begins is_solid text.now) (Stops is_solid text.now) }
{
    match first(text) {
        Some((byte, _)) => !is_blank(byte),
        None => false,
    }
}
