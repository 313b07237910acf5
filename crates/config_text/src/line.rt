ghost use Rattle.std.specs.Prelude.{◌≡◌, IfErr, IfOk, OnOk, map, not};
ghost use Rattle.std.specs.List.{list_any, slice_split};
ghost use Rattle.std.specs.Str.{IsUtf8};
ghost use Rattle.config_text.specs.Faults.{LineFault};
ghost use Rattle.basics.specs.Blanks.{is_blank};
ghost use Rattle.config_text.specs.Lines.{begins_with_hash, counts, is_newline, lines};
ghost use Rattle.config_text.specs.declared.fault.TextFault.TheVariants.{Memory};

use crate::fault::TextFault;
use crate::utf8::{line_number, text_of};
use basics::{Text, is_blank};
use std::alloc::{AllocError, Global};

/// A line of a text, without its newline.
#[derive(Debug, Drop)]
pub struct Line {
    /// Counts from 1, and stays at `u32::MAX` behind it.
    pub number: u32,
    pub text: Text,
}

/// The lines of the text, but those of blanks only and those that begin with `#`.
pub fn lines(alloc: Global, bytes: &[u8]) -> Result<Vec<Line>, TextFault>
    ensures found { IfOk result (λ v. v.items ≡ lines bytes.now) }
    ensures utf8 { OnOk result (IsUtf8 bytes.now) }
    ensures only { IsUtf8 bytes.now → IfErr result (λ e. e ≡ Memory) }
    ensures fault { IfErr result (LineFault bytes.now) }
{
    let text = match text_of(bytes) {
        Ok(text) => text,
        Err(line) => return Err(TextFault::NotUtf8 { line }),
    };
    let pieces = pieces(alloc, text)?;
    let mut lines = Vec::new(alloc);
    for (at, piece) in pieces.iter().enumerate() {
        if counts(piece.as_bytes()) {
            lines.push(Line {
                number: line_number(at),
                text: Text::new(alloc, piece)?,
            })?;
        }
    }
    Ok(lines)
}

/// The pieces of the text between its newlines: one more than it has newlines.
pub fn pieces(alloc: Global, text: &str) -> Result<Vec<&str>, AllocError>
    ensures { IfOk result (λ v. map (λ x. x.now) v.items ≡ slice_split is_newline text.now) }
{
    text.split('\n').collect(alloc)
}

fn counts(line: &[u8]) -> bool
    ensures { result ≡ counts line.now }
{
    !begins_with_hash(line) && has_solid(line)
}

fn begins_with_hash(line: &[u8]) -> bool
    ensures { result ≡ begins_with_hash line.now }
{
    match line {
        [first, ..] => *first == b'#',
        [] => false,
    }
}

fn has_solid(line: &[u8]) -> bool
    ensures { result ≡ list_any (λ b. not (is_blank b)) line.now }
{
    line.iter().any(|b| !is_blank(*b))
}
