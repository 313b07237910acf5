ghost use Rattle.std.specs.Prelude.{◌≡◌, ◌∷◌, List, ℕ, MatchOption, [], false};
ghost use Rattle.config_text.specs.Follow.{Stops};
ghost use Rattle.config_text.specs.Reading.{Assigns, BeginsOther, LacksKey};
ghost use Rattle.config_text.specs.Values.{HasKey, begins_key, is_key_byte};

use crate::stretch::{Stretch, begins_key, cut};

/// The first byte of the text, and the rest.
pub(crate) fn first(text: &[u8]) -> Option<(u8, &[u8])>
    ensures { MatchOption result (text.now ≡ []) (λ r. text.now ≡ r.0 ∷ r.1.now) }
{
    match text {
        [first, rest @ ..] => Some((*first, rest)),
        [] => None,
    }
}

/// What stands behind the byte, where the text begins with it.
pub(crate) fn behind(byte: u8, text: &[u8]) -> Option<&[u8]>
    ensures { MatchOption result (BeginsOther byte text.now) (λ rest. text.now ≡ byte ∷ rest.now) }
{
    match first(text) {
        Some((head, rest)) if head == byte => Some(rest),
        _ => None,
    }
}

/// The key at the head of the text, and what stands behind it.
pub(crate) fn split_name(text: &[u8]) -> Option<(&[u8], &[u8])>
    ensures { MatchOption result (Stops begins_key text.now)
        (λ r. HasKey text.now r.0.now r.1.now) }
{
    match text {
        [first, ..] if begins_key(*first) => Some(cut(Stretch::Key, text)),
        _ => None,
    }
}

/// The key at the head of the text that stands in front of the byte, and what stands behind that.
pub(crate) fn key_before(byte: u8, text: &[u8]) -> Option<(&[u8], &[u8])>
    requires { is_key_byte byte ≡ false }
    ensures { MatchOption result (LacksKey byte text.now)
        (λ r. Assigns byte text.now r.0.now r.1.now) }
{
    let (key, rest) = split_name(text)?;
    let rest = behind(byte, rest)?;
    Some((key, rest))
}
