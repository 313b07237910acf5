//! The text of an MD5 digest: 32 hexadecimal digits in lower case.
//!
//! **A contract sees** a digest as its 16 bytes.
//!
//! **Proved**: a text is read exactly where it writes a digest, as just that digest.
//!
//! **Only tested**: nothing; `tests/texts` shows examples, by lines of CONTENTS and cache entries.
//!
//! ```
//! let digest = digest_from(b"900150983cd24fb0d6963f7d28e17f72");
//! ```
#![tactic(auto)]

ghost use Rattle.std.specs.Prelude.{◌≡◌, ◌↔◌, IsTrue, MatchOption};
ghost use Rattle.hex.specs.Hex.{encode_lower};
ghost use Rattle.file_digest.specs.Digests.{IsNoDigestText, WritesDigest};

use hex::FromHex;

/// The digest that these digits write.
pub fn digest_from(digits: &[u8]) -> Option<[u8; 16]>
    ensures { MatchOption result (IsNoDigestText digits.now) (WritesDigest digits.now) }
{
    let Ok(md5) = <[u8; 16] as FromHex>::from_hex(digits) else {
        return None;
    };
    if is_hex_of(digits, md5) {
        Some(md5)
    } else {
        None
    }
}

fn is_hex_of(digits: &[u8], md5: [u8; 16]) -> bool
    ensures { IsTrue result ↔ (digits.now ≡ encode_lower md5) }
{
    let mut text = [0; 32];
    match hex::encode_to_slice(md5, &mut text) {
        Ok(()) => text.as_slice() == digits,
        Err(_) => false,
    }
}
