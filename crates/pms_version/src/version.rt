ghost use Rattle.pms_version.specs.Begins.{ends_in_number, letter_and_suffixes_begin};
ghost use Rattle.pms_version.specs.Begins.{numbers_begin, suffixes_begin, version_begins};
ghost use Rattle.pms_version.specs.Limits.{IsReadable};
ghost use Rattle.pms_version.specs.Order.{base_cmp, later_number_cmp, suffixes_cmp, version_cmp};
ghost use Rattle.pms_version.specs.Order.{without_revision};
ghost use Rattle.pms_version.specs.Reading.{FirstFault};
ghost use Rattle.pms_version.specs.declared.fault.VersionFault.TheVariants.{Memory};
ghost use Rattle.std.specs.Cmp.Lexicographic.{slice_cmp};
ghost use Rattle.std.specs.Ordering.{is_eq};
ghost use Rattle.std.specs.Prelude.{◌≡◌, IfErr, IfOk, MatchResult};
ghost use Rattle.pms_grammar.specs.Grammar.{VersionValue, spelling};

use crate::check::check;
use crate::fault::VersionFault;
use crate::number::Number;
use crate::reading::read;
use crate::suffix::{NO_SUFFIX, Suffix};
use basics::Text;
use std::alloc::{AllocError, Global};
use std::cmp::Ordering;
use std::marker::Model;

/// A version. Contracts see its parts.
#[derive(Debug, Drop)]
pub struct Version {
    pub(crate) text: Text,
    pub(crate) first: Number,
    pub(crate) more: Vec<Number>,
    pub(crate) letter: Option<u8>,
    pub(crate) suffixes: Vec<Suffix>,
    pub(crate) revision: Number,
}

impl Model for Version {
    ghost use Rattle.pms_grammar.specs.Grammar.{VersionValue};

    ghost Value = { VersionValue };

    ghost use Rattle.pms_version.specs.Views.{IsRead, parts_of};

    ghost view = { parts_of };

    ghost invariant = { IsRead };
}

impl Version {
    /// Reads a version of at most 255 bytes whose numbers have at most 38 digits each.
    pub fn parse(alloc: Global, text: &str) -> Result<Version, VersionFault>
        ensures found { IfOk result (λ v. IsReadable v × (text.now ≡ spelling v)) }
        ensures only { (p : VersionValue) → IsReadable p → text.now ≡ spelling p →
            MatchResult result (λ v. v ≡ p) (λ e. e ≡ Memory) }
        ensures fault { IfErr result (FirstFault text.now) }
    {
        match check(text.as_bytes()) {
            Ok(()) => match read(alloc, text) {
                Ok(version) => Ok(version),
                Err(error) => Err(VersionFault::from(error)),
            },
            Err(fault) => Err(fault),
        }
    }

    /// As it was read.
    pub fn text(&self) -> &str
        ensures text { result.now ≡ spelling self.now }
        ensures form { IsReadable self.now }
    {
        self.text.as_str()
    }

    /// A copy, in memory of the same allocator.
    pub fn try_clone(&self) -> Result<Version, AllocError>
        ensures { IfOk result (λ v. v ≡ self.now) }
    {
        read(*self.more.allocator(), self.text.as_str())
    }

    /// The order of PMS 3.3. It is no order of texts: `1.0` and `1.00` are equal.
    pub fn compare(&self, other: &Version) -> Ordering
        ensures { result ≡ version_cmp self.now other.now }
    {
        self.compare_base(other)
            .then(self.revision.compare(&other.revision))
    }

    /// Equal in all but the revision, as `~` asks.
    pub fn equal_without_revision(&self, other: &Version) -> bool
        ensures { result ≡ is_eq
            (version_cmp (without_revision self.now) (without_revision other.now)) }
    {
        self.compare_base(other).is_eq()
    }

    /// Does `=…*` with this version accept the candidate?
    pub fn begins(&self, candidate: &Version) -> bool
        ensures { result ≡ version_begins self.now candidate.now }
    {
        if self.revision.is_written() {
            self.compare(candidate).is_eq()
        } else {
            self.first.compare(&candidate.first).is_eq()
                && numbers_begin(&self.more, &candidate.more)
                && (self.ends_in_number() || self.letter_and_suffixes_begin(candidate))
        }
    }

    fn compare_base(&self, other: &Version) -> Ordering
        ensures { result ≡ base_cmp self.now other.now }
    {
        self.first
            .compare(&other.first)
            .then(compare_numbers(&self.more, &other.more))
            .then(self.letter.cmp(&other.letter))
            .then(compare_suffixes(&self.suffixes, &other.suffixes))
    }

    fn ends_in_number(&self) -> bool
        ensures { result ≡ ends_in_number self.now }
    {
        self.letter.is_none() && self.suffixes.is_empty()
    }

    fn letter_and_suffixes_begin(&self, candidate: &Version) -> bool
        ensures { result ≡ letter_and_suffixes_begin self.now candidate.now }
    {
        self.more.len() == candidate.more.len()
            && self.letter.cmp(&candidate.letter).is_eq()
            && suffixes_begin(&self.suffixes, &candidate.suffixes)
    }
}

fn compare_numbers(numbers: &[Number], others: &[Number]) -> Ordering
    ensures { result ≡ slice_cmp later_number_cmp numbers.now others.now }
{
    match numbers {
        [] => match others {
            [] => Ordering::Equal,
            [_, ..] => Ordering::Less,
        },
        [number, numbers @ ..] => match others {
            [] => Ordering::Greater,
            [other, others @ ..] => number
                .compare_later(other)
                .then(compare_numbers(numbers, others)),
        },
    }
}

fn compare_suffixes(suffixes: &[Suffix], others: &[Suffix]) -> Ordering
    ensures { result ≡ suffixes_cmp suffixes.now others.now }
{
    match suffixes {
        [] => match others {
            [] => Ordering::Equal,
            [other, ..] => NO_SUFFIX.cmp(&other.kind.rank()),
        },
        [suffix, suffixes @ ..] => match others {
            [] => suffix.kind.rank().cmp(&NO_SUFFIX),
            [other, others @ ..] => suffix
                .compare(other)
                .then(compare_suffixes(suffixes, others)),
        },
    }
}

fn numbers_begin(numbers: &[Number], others: &[Number]) -> bool
    ensures { result ≡ numbers_begin numbers.now others.now }
{
    match numbers {
        [] => true,
        [number, numbers @ ..] => match others {
            [] => false,
            [other, others @ ..] => number.compare_later(other).is_eq()
                && numbers_begin(numbers, others),
        },
    }
}

fn suffixes_begin(suffixes: &[Suffix], others: &[Suffix]) -> bool
    ensures { result ≡ suffixes_begin suffixes.now others.now }
{
    match suffixes {
        [] => true,
        [suffix, suffixes @ ..] => match others {
            [] => false,
            [other, others @ ..] => suffix.begins(other, suffixes.is_empty())
                && suffixes_begin(suffixes, others),
        },
    }
}
