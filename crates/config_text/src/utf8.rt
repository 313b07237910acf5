ghost use Rattle.std.specs.Prelude.{◌≡◌, ◌++◌, ℕ, List, IfErr, IfOk, OnOk};
ghost use Rattle.std.specs.Str.{IsUtf8, IsValidUpTo};
ghost use Rattle.config_text.specs.Faults.{NotUtf8At};
ghost use Rattle.config_text.specs.Lines.{line_behind, line_number};

use basics::NEWLINE;
use std::str::from_utf8;

/// The bytes as a text, or the line of the first byte that isn't UTF-8.
pub fn text_of(bytes: &[u8]) -> Result<&str, u32>
    ensures text { IfOk result (λ text. text.now ≡ bytes.now) }
    ensures utf8 { OnOk result (IsUtf8 bytes.now) }
    ensures line { IfErr result (NotUtf8At bytes.now) }
{
    match from_utf8(bytes) {
        Ok(text) => Ok(text),
        Err(fault) => {
            let (front, _) = bytes.split_at(fault.valid_up_to());
            Err(line_behind(front))
        }
    }
}

fn line_behind(front: &[u8]) -> u32
    ensures { result ≡ line_behind front.now }
{
    line_number(front.iter().filter(|b| **b == NEWLINE).count())
}

/// The line that goes on at the rest of the text, where the text begins in this one.
pub fn line_after(line: u32, text: &[u8], rest: &[u8]) -> u32
    ensures { (front read : List ℕ) → line ≡ line_behind front → text.now ≡ read ++ rest.now →
        result ≡ line_behind (front ++ read) }
{
    let (read, _) = text.split_at(text.len().saturating_sub(rest.len()));
    let newlines = read.iter().filter(|b| **b == NEWLINE).count();
    line.saturating_add(u32::try_from(newlines).unwrap_or(u32::MAX))
}

/// The number of the line behind so many newlines.
pub fn line_number(newlines: usize) -> u32
    ensures { result ≡ line_number newlines }
{
    u32::try_from(newlines)
        .unwrap_or(u32::MAX)
        .saturating_add(1)
}
