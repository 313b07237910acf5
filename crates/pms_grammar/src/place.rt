ghost use Rattle.std.specs.Prelude.{◌≡◌, if◌then◌else◌};
ghost use Rattle.basics.specs.Bytes.{is_digit, is_lower};
ghost use Rattle.pms_grammar.specs.Machine.{behind_number, behind_p, expect, is_nowhere, may_end};
ghost use Rattle.pms_grammar.specs.Machine.{next, next_part, start_word};

use basics::{is_digit, is_lower};

/// What was read of a version so far, as far as it matters to what may follow.
#[derive(Clone, Copy)]
pub enum Place {
    /// A number has to begin.
    Number,
    /// In a number, behind a digit of it.
    MoreNumber,
    Letter,
    Underscore,
    GotA,
    GotAl,
    GotAlp,
    GotAlph,
    GotB,
    GotBe,
    GotBet,
    GotR,
    GotP,
    GotPr,
    /// Behind a suffix's word, or in its integer.
    Suffix,
    Hyphen,
    HyphenR,
    Revision,
    /// No version begins with what was read.
    Nowhere,
}

impl Place {
    /// Where `byte` leads.
    pub fn next(self, byte: u8) -> Place
        ensures { result ≡ next self byte }
    {
        match self {
            Place::Number => digit_or(byte, Place::MoreNumber, Place::Nowhere),
            Place::MoreNumber => digit_or(byte, Place::MoreNumber, behind_number(byte)),
            Place::Letter => next_part(byte),
            Place::Underscore => start_word(byte),
            Place::GotA => expect(b'l', Place::GotAl, byte),
            Place::GotAl => expect(b'p', Place::GotAlp, byte),
            Place::GotAlp => expect(b'h', Place::GotAlph, byte),
            Place::GotAlph => expect(b'a', Place::Suffix, byte),
            Place::GotB => expect(b'e', Place::GotBe, byte),
            Place::GotBe => expect(b't', Place::GotBet, byte),
            Place::GotBet => expect(b'a', Place::Suffix, byte),
            Place::GotR => expect(b'c', Place::Suffix, byte),
            Place::GotP => digit_or(byte, Place::Suffix, behind_p(byte)),
            Place::GotPr => expect(b'e', Place::Suffix, byte),
            Place::Suffix => digit_or(byte, Place::Suffix, next_part(byte)),
            Place::Hyphen => expect(b'r', Place::HyphenR, byte),
            Place::HyphenR => digit_or(byte, Place::Revision, Place::Nowhere),
            Place::Revision => digit_or(byte, Place::Revision, Place::Nowhere),
            Place::Nowhere => Place::Nowhere,
        }
    }

    /// A version may end here.
    pub fn may_end(self) -> bool
        ensures { result ≡ may_end self }
    {
        match self {
            Place::MoreNumber | Place::Letter | Place::GotP | Place::Suffix | Place::Revision =>
                true,
            _ => false,
        }
    }

    /// No version begins with what was read.
    pub fn is_nowhere(self) -> bool
        ensures { result ≡ is_nowhere self }
    {
        match self {
            Place::Nowhere => true,
            _ => false,
        }
    }
}

fn digit_or(byte: u8, digit: Place, other: Place) -> Place
    ensures { result ≡ (if is_digit byte then digit else other) }
{
    if is_digit(byte) { digit } else { other }
}

fn expect(want: u8, to: Place, byte: u8) -> Place
    ensures { result ≡ expect want to byte }
{
    if byte == want { to } else { Place::Nowhere }
}

fn next_part(byte: u8) -> Place
    ensures { result ≡ next_part byte }
{
    if byte == b'_' {
        Place::Underscore
    } else {
        expect(b'-', Place::Hyphen, byte)
    }
}

fn behind_number(byte: u8) -> Place
    ensures { result ≡ behind_number byte }
{
    if byte == b'.' {
        Place::Number
    } else if is_lower(byte) {
        Place::Letter
    } else {
        next_part(byte)
    }
}

fn behind_p(byte: u8) -> Place
    ensures { result ≡ behind_p byte }
{
    if byte == b'r' {
        Place::GotPr
    } else {
        next_part(byte)
    }
}

fn start_word(byte: u8) -> Place
    ensures { result ≡ start_word byte }
{
    if byte == b'a' {
        Place::GotA
    } else if byte == b'b' {
        Place::GotB
    } else if byte == b'r' {
        Place::GotR
    } else {
        expect(b'p', Place::GotP, byte)
    }
}
