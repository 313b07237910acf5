ghost use Rattle.std.specs.Prelude.{◌≡◌, ◌++◌, ◌<◌, ◌∷◌, [], IfOk, OnOk, string_bytes, true};
ghost use Rattle.std.specs.Char.{digit_char, is_control};
ghost use Rattle.merge_report.specs.Shown.{IsPlain, escape, shown, shown_char};

use std::alloc::{AllocError, Global};

/// A text from outside as a line shows it: each control character as `\xNN`.
pub fn shown(alloc: Global, text: &str) -> Result<String, AllocError>
    ensures text { IfOk result (λ t. string_bytes t ≡ shown text.now) }
    ensures plain { IfOk result (λ t. IsPlain (string_bytes t)) }
{
    let mut seen = String::new(alloc);
    for letter in text.chars() {
        push_shown(&mut seen, letter)?;
    }
    Ok(seen)
}

fn push_shown(out: &mut String, letter: char) -> Result<(), AllocError>
    ensures { OnOk result (string_bytes out.new ≡ string_bytes out.old ++ shown_char letter) }
{
    if letter.is_control() {
        push_escape(out, letter)
    } else {
        out.push(letter)
    }
}

/// A backslash, an `x` and the number of a control character in two hexadecimal digits.
fn push_escape(out: &mut String, letter: char) -> Result<(), AllocError>
    requires control { is_control letter ≡ true }
    ensures { OnOk result (string_bytes out.new ≡ string_bytes out.old ++ escape letter) }
{
    let number = letter as u32;
    out.push_str("\\x")?;
    push_digit(out, number / 16)?;
    push_digit(out, number % 16)
}

/// A hexadecimal digit.
fn push_digit(out: &mut String, digit: u32) -> Result<(), AllocError>
    requires digit { digit < 16 }
    ensures { OnOk result (string_bytes out.new ≡ string_bytes out.old ++ digit_char digit ∷ []) }
{
    match char::from_digit(digit, 16) {
        Some(written) => out.push(written),
        None => unreachable!(),
    }
}
