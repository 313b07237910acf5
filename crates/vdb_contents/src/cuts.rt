ghost use Rattle.std.specs.Prelude.{◌≡◌, ◌++◌, ◌∷◌, [], MatchOption};
ghost use Rattle.vdb_contents.specs.Cuts.{HasNoSpace, IsFirstLine, LacksArrow};

use memchr::{memchr, memrchr};

/// The first line of a text without its newline, and what is behind it.
pub(crate) fn first_line(text: &[u8]) -> Option<(&[u8], &[u8])>
    ensures { MatchOption result (text.now ≡ []) (λ x. IsFirstLine text.now x.0.now x.1.now) }
{
    if text.is_empty() {
        return None;
    }
    match memchr(b'\n', text) {
        Some(at) => {
            let (line, behind) = text.split_at(at);
            Some((line, &behind[1..]))
        }
        None => Some(text.split_at(text.len())),
    }
}

/// What stands before the last space, and behind it.
pub(crate) fn split_last_space(text: &[u8]) -> Option<(&[u8], &[u8])>
    ensures { MatchOption result (HasNoSpace text.now)
        (λ x. HasNoSpace x.1.now × (text.now ≡ x.0.now ++ (32 ∷ x.1.now))) }
{
    let at = memrchr(b' ', text)?;
    let (front, back) = text.split_at(at);
    Some((front, &back[1..]))
}

/// What stands before the first arrow, and behind it.
pub(crate) fn split_arrow(text: &[u8]) -> Option<(&[u8], &[u8])>
    ensures { MatchOption result (LacksArrow text.now)
        (λ x. LacksArrow x.0.now × (text.now ≡ x.0.now ++ 32 ∷ 45 ∷ 62 ∷ x.1.now)) }
{
    for at in 0..text.len() {
        let (front, back) = text.split_at(at);
        if let Some(behind) = back.strip_prefix(b" ->") {
            return Some((front, behind));
        }
    }
    None
}
