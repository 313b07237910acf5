ghost use Rattle.std.specs.Prelude.{◌≡◌, MatchOption};
ghost use Rattle.config_text.specs.Assignments.{is_in_line};
ghost use Rattle.config_text.specs.Stretches.{EndsAt, GoesOn, IsCut, goes_on};
ghost use Rattle.config_text.specs.Values.{begins_key, is_in_single, is_key_byte};

use basics::{NEWLINE, is_digit, is_lower};

/// A stretch of bytes.
#[derive(Clone, Copy, Debug)]
pub(crate) enum Stretch {
    /// Bytes of a key.
    Key,
    /// The rest of a line.
    Line,
    /// What stands between single quotes.
    Single,
}

/// The longest stretch at the head of the text, and what stands behind it.
pub(crate) fn cut(stretch: Stretch, text: &[u8]) -> (&[u8], &[u8])
    ensures { IsCut stretch text.now result.0.now result.1.now }
{
    match end_of(stretch, text) {
        Some(at) => text.split_at(at),
        None => text.split_at(text.len()),
    }
}

fn end_of(stretch: Stretch, text: &[u8]) -> Option<usize>
    ensures { MatchOption result (GoesOn stretch text.now) (EndsAt stretch text.now) }
{
    text.iter().position(|b| !goes_on(stretch, *b))
}

fn goes_on(stretch: Stretch, byte: u8) -> bool
    ensures { result ≡ goes_on stretch byte }
{
    match stretch {
        Stretch::Key => is_key_byte(byte),
        Stretch::Line => is_in_line(byte),
        Stretch::Single => is_in_single(byte),
    }
}

pub(crate) fn begins_key(byte: u8) -> bool
    ensures { result ≡ begins_key byte }
{
    is_lower(byte) || (byte >= b'A' && byte <= b'Z') || byte == b'_'
}

fn is_key_byte(byte: u8) -> bool
    ensures { result ≡ is_key_byte byte }
{
    begins_key(byte) || is_digit(byte)
}

fn is_in_line(byte: u8) -> bool
    ensures { result ≡ is_in_line byte }
{
    byte != NEWLINE
}

fn is_in_single(byte: u8) -> bool
    ensures { result ≡ is_in_single byte }
{
    byte != b'\''
}
