ghost use Rattle.pms_version.specs.declared.limits.TheConstants.{MOST_DIGITS};
ghost use Rattle.pms_version.specs.Order.{begins_zero, decimal, integer_cmp, is_empty};
ghost use Rattle.pms_version.specs.Order.{later_number_cmp, trim_zeros};
ghost use Rattle.std.specs.Prelude.{◌≡◌, ◌≤◌, IfOk, length, not};
ghost use Rattle.pms_grammar.specs.Grammar.{AreDigits};

use std::alloc::{AllocError, Global};
use std::cmp::Ordering;
use std::marker::Model;

/// A number as it is written, or none. Contracts see its digits.
#[derive(Debug, Drop)]
pub struct Number {
    digits: Vec<u8>,
    value: u128,
}

impl Model for Number {
    ghost use Rattle.pms_version.specs.Order.{decimal};
    ghost use Rattle.std.specs.Prelude.{◌≡◌, List, ℕ};

    ghost Value = { List ℕ };

    ghost view = { λ n. n.digits.items };

    ghost invariant = { λ n. n.value ≡ decimal n.digits.items };
}

impl Number {
    pub fn new(alloc: Global, digits: &[u8]) -> Result<Number, AllocError>
        requires digits { AreDigits digits.now }
        requires short { length digits.now ≤ MOST_DIGITS }
        ensures { IfOk result (λ n. n ≡ digits.now) }
    {
        let value = value_of(digits);
        let digits = Vec::from_slice(alloc, digits)?;
        Ok(Number { digits, value })
    }

    pub fn is_written(&self) -> bool
        ensures { result ≡ not (is_empty self.now) }
    {
        !self.digits.is_empty()
    }

    /// By the numbers written.
    pub fn compare(&self, other: &Number) -> Ordering
        ensures { result ≡ integer_cmp self.now other.now }
    {
        self.value.cmp(&other.value)
    }

    /// As numbers behind a dot.
    pub fn compare_later(&self, other: &Number) -> Ordering
        ensures { result ≡ later_number_cmp self.now other.now }
    {
        if begins_zero(&self.digits) || begins_zero(&other.digits) {
            trimmed(&self.digits).cmp(trimmed(&other.digits))
        } else {
            self.value.cmp(&other.value)
        }
    }
}

fn begins_zero(digits: &[u8]) -> bool
    ensures { result ≡ begins_zero digits.now }
{
    match digits {
        [] => false,
        [digit, ..] => *digit == b'0',
    }
}

/// The digits without the zeros at their end.
fn trimmed(digits: &[u8]) -> &[u8]
    ensures { result.now ≡ trim_zeros digits.now }
{
    let mut end = digits.len();
    while end > 0 && digits[end - 1] == b'0' {
        end -= 1;
    }
    &digits[..end]
}

fn value_of(digits: &[u8]) -> u128
    requires digits { AreDigits digits.now }
    requires short { length digits.now ≤ MOST_DIGITS }
    ensures { result ≡ decimal digits.now }
{
    let mut value = 0;
    for digit in digits {
        value = 10 * value + (*digit - b'0') as u128;
    }
    value
}
