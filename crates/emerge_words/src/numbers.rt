ghost use Rattle.std.specs.Prelude.{◌≡◌, [], ◌∷◌, IfErr, IfOk, Some, option_map, slice_get};
ghost use Rattle.std.specs.List.{list_all};
ghost use Rattle.basics.specs.Bytes.{is_digit};
ghost use Rattle.emerge_words.specs.Lines.{line_value};
ghost use Rattle.emerge_words.specs.Numbers.{AreNumbers, bad_number, bad_numbers, is_numeral};
ghost use Rattle.emerge_words.specs.Numbers.{most_backtrack, most_digits, most_flag_changes};
ghost use Rattle.emerge_words.specs.Numbers.{most_jobs, most_load, number_in, number_or};
ghost use Rattle.emerge_words.specs.Numbers.{numeral_in};

use crate::line::Line;
use basics::is_digit;

/// How many groups may be under way at a time.
pub const MOST_JOBS: u32 = 16;

/// How many choices the search may take back.
pub const MOST_BACKTRACK: u32 = 20_000;

/// How many flags may be changed.
pub const MOST_FLAG_CHANGES: u32 = 2;

/// How many packages a load may have.
pub const MOST_LOAD: u32 = 4_000;

/// How many digits the text of a number may have.
const MOST_DIGITS: usize = 10;

/// The numbers of a line.
#[derive(Clone, Copy)]
pub(crate) struct Numbers {
    pub(crate) jobs: u32,
    pub(crate) backtrack: u32,
    pub(crate) flips: u32,
    pub(crate) load: u32,
}

/// The numbers of a line, or the first text that is no number in its range.
pub(crate) fn read_numbers<'a>(line: &Line<'a>) -> Result<Numbers, &'a str>
    ensures good { IfOk result (λ _. bad_numbers (line_value line.now) ≡ []) }
    ensures numbers { IfOk result (AreNumbers (line_value line.now)) }
    ensures bad { IfErr result (λ word. slice_get (bad_numbers (line_value line.now)) 0 ≡
        Some word.now) }
{
    let jobs = read_number(line.jobs, 1, MOST_JOBS, 1)?;
    let backtrack = read_number(line.backtrack, 1, MOST_BACKTRACK, 10_000)?;
    let flips = read_number(line.flag_changes, 0, MOST_FLAG_CHANGES, 0)?;
    let load = read_number(line.load, 1, MOST_LOAD, 0)?;
    Ok(Numbers {
        jobs,
        backtrack,
        flips,
        load,
    })
}

/// The number of one option, or the text that is none in its range.
fn read_number<'a>(
    text: Option<&'a str>,
    least: u32,
    most: u32,
    otherwise: u32,
) -> Result<u32, &'a str>
    ensures good { IfOk result (λ _. bad_number least most (option_map (λ s. s.now) text.entry) ≡
        []) }
    ensures number { IfOk result (λ n. n ≡
        number_or otherwise (option_map (λ s. s.now) text.entry)) }
    ensures bad { IfErr result (λ word. bad_number least most (option_map (λ s. s.now) text.entry) ≡
        word.now ∷ []) }
{
    let Some(text) = text else {
        return Ok(otherwise);
    };
    number_in(text, least, most).ok_or(text)
}

/// The number that a text writes, if it is from `least` to `most`.
fn number_in(text: &str, least: u32, most: u32) -> Option<u32>
    ensures { result ≡ number_in least most text.now }
{
    let number = numeral(text)?;
    if number < u64::from(least) || number > u64::from(most) {
        return None;
    }
    Some(number as u32)
}

/// The number that a text of digits writes.
fn numeral(text: &str) -> Option<u64>
    ensures { result ≡ numeral_in text.now }
{
    if !is_numeral(text.as_bytes()) {
        return None;
    }
    text.parse::<u64>().ok()
}

/// Whether a text is one digit or more, and not too many.
fn is_numeral(bytes: &[u8]) -> bool
    ensures { result ≡ is_numeral bytes.now }
{
    !bytes.is_empty() && bytes.len() <= MOST_DIGITS && are_digits(bytes)
}

fn are_digits(bytes: &[u8]) -> bool
    ensures { result ≡ list_all is_digit bytes.now }
{
    bytes.iter().all(|b| is_digit(*b))
}
