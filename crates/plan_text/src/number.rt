ghost use Rattle.std.specs.Prelude.{◌↔◌, IsTrue, decimal};
ghost use Rattle.plan_text.specs.Numbers.{IsNumber, IsWritten};
ghost use Rattle.plan_text.specs.Spelled.{Reads};

use itoa::Buffer;

/// The number that a word writes: decimal digits without a leading zero, and more than 0.
pub(crate) fn read_number(word: &str) -> Option<u32>
    ensures { Reads IsNumber decimal word.now result }
{
    let Ok(number) = word.parse::<u32>() else {
        return None;
    };
    if !is_written(number, word) {
        return None;
    }
    Some(number)
}

fn is_written(number: u32, word: &str) -> bool
    ensures { IsTrue result ↔ IsWritten number word.now }
{
    let mut buffer = Buffer::new();
    number > 0 && buffer.format(number) == word
}
