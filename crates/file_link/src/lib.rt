//! The texts that a link of a package may lead to.
//!
//! **A contract sees** a target as its bytes.
//!
//! **Proved**: a text is told to be a target exactly where it is one.
//!
//! **Only tested**: nothing; `tests/disk` shows examples, by whole runs.
//!
//! ```
//! let good = is_target(&object.bytes);
//! ```
#![tactic(auto)]

ghost use Rattle.std.specs.Prelude.{◌≡◌};
ghost use Rattle.std.specs.List.{list_all};
ghost use Rattle.std.specs.Str.{is_utf8};
ghost use Rattle.file_link.specs.Targets.{is_target, is_target_byte};

use std::str::from_utf8;

/// The greatest length of a target, in bytes.
const MOST_BYTES: usize = 4095;

/// Whether a link may lead to these bytes: some and at most 4,095, in UTF-8, without a newline or a
/// NUL.
pub fn is_target(bytes: &[u8]) -> bool
    ensures { result ≡ is_target bytes.now }
{
    !bytes.is_empty() && bytes.len() <= MOST_BYTES && are_clean(bytes) && is_text(bytes)
}

fn are_clean(bytes: &[u8]) -> bool
    ensures { result ≡ list_all is_target_byte bytes.now }
{
    bytes.iter().all(|b| *b != b'\n' && *b != 0)
}

fn is_text(bytes: &[u8]) -> bool
    ensures { result ≡ is_utf8 bytes.now }
{
    match from_utf8(bytes) {
        Ok(_) => true,
        Err(_) => false,
    }
}
