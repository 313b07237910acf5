ghost use Rattle.std.specs.Prelude.{◌≡◌, min, not, position, take};
ghost use Rattle.basics.specs.Blanks.{is_blank};
ghost use Rattle.config_text.specs.Lines.{line_behind, most_lines};
ghost use Rattle.vdb_record.specs.Faults.{line_at, value_start};

use basics::{NEWLINE, is_blank};
use config_text::line_number;

/// The line of the byte at this place, counted from 1 up to `u32::MAX`.
pub(crate) fn line_at(bytes: &[u8], at: usize) -> u32
    ensures { result ≡ line_at bytes.now at }
{
    line_behind(front(bytes, at))
}

/// The bytes before this place.
fn front(bytes: &[u8], at: usize) -> &[u8]
    ensures { result.now ≡ take at bytes.now }
{
    if at < bytes.len() {
        &bytes[..at]
    } else {
        bytes
    }
}

/// The line that goes on behind these bytes.
fn line_behind(front: &[u8]) -> u32
    ensures { result ≡ line_behind front.now }
{
    line_number(front.iter().filter(|b| **b == NEWLINE).count())
}

/// The number of a line, if it isn't past the greatest one.
pub(crate) fn line_from(number: usize) -> u32
    ensures { result ≡ min number most_lines }
{
    u32::try_from(number).unwrap_or(u32::MAX)
}

/// Where the value begins: at the first byte that is no blank.
pub(crate) fn value_start(text: &[u8]) -> usize
    ensures { result ≡ value_start text.now }
{
    first_solid(text).unwrap_or(0)
}

fn first_solid(text: &[u8]) -> Option<usize>
    ensures { result ≡ position (λ b. not (is_blank b)) text.now }
{
    text.iter().position(|b| !is_blank(*b))
}
