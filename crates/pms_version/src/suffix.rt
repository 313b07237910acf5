ghost use Rattle.pms_version.specs.Begins.{suffix_begins};
ghost use Rattle.pms_version.specs.Inside.{kind_of};
ghost use Rattle.pms_version.specs.Order.{rank, suffix_cmp};
ghost use Rattle.std.specs.Prelude.{◌≡◌};

use crate::number::Number;
use std::cmp::Ordering;
use std::marker::Model;

/// The rank of no suffix at all: below `_p`, and above the other kinds.
pub const NO_SUFFIX: u8 = 4;

#[derive(Clone, Copy, Debug, Drop)]
pub enum Kind {
    Alpha,
    Beta,
    Pre,
    Rc,
    P,
}

impl Kind {
    /// The place in the order of kinds.
    pub fn rank(self) -> u8
        ensures { result ≡ rank (kind_of self) }
    {
        match self {
            Kind::Alpha => 0,
            Kind::Beta => 1,
            Kind::Pre => 2,
            Kind::Rc => 3,
            Kind::P => 5,
        }
    }
}

/// A suffix: its kind, and its number where one is written.
#[derive(Debug, Drop)]
pub struct Suffix {
    pub kind: Kind,
    pub number: Number,
}

impl Model for Suffix {
    ghost use Rattle.pms_version.specs.Inside.{kind_of};
    ghost use Rattle.pms_grammar.specs.Grammar.{SuffixValue};

    ghost Value = { SuffixValue };

    ghost view = { λ s. record { kind = kind_of s.kind; digits = s.number } };
}

impl Suffix {
    pub fn compare(&self, other: &Suffix) -> Ordering
        ensures { result ≡ suffix_cmp self.now other.now }
    {
        self.kind
            .rank()
            .cmp(&other.kind.rank())
            .then(self.number.compare(&other.number))
    }

    /// The same kind and number; the last suffix written asks for its kind alone where it has no
    /// number.
    pub fn begins(&self, other: &Suffix, last: bool) -> bool
        ensures { result ≡ suffix_begins last self.now other.now }
    {
        self.kind.rank() == other.kind.rank()
            && ((last && !self.number.is_written()) || self.number.compare(&other.number).is_eq())
    }
}
