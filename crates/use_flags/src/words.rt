ghost use Rattle.std.specs.Prelude.{◌≡◌, ◌≤◌, ◌⊎◌, length, take, drop, not, MatchOption};
ghost use Rattle.std.specs.List.{position};
ghost use Rattle.basics.specs.Blanks.{is_blank};
ghost use Rattle.use_flags.specs.Words.{words, BeginsWithBreak, IsNextWord};

use basics::is_blank;

/// A word of a text, and where in the text it begins.
#[derive(Clone, Copy)]
pub struct Word<'a> {
    pub at: usize,
    pub bytes: &'a [u8],
}

/// The first word at or after `from`, which is the beginning of the text or right behind a word.
pub fn next_word<'a>(bytes: &'a [u8], from: usize) -> Option<Word<'a>>
    requires within { from ≤ length bytes.now }
    requires apart { (from ≡ 0) ⊎ BeginsWithBreak (drop from bytes.now) }
    ensures { MatchOption result (words bytes.now ≡ words (take from bytes.now))
        (λ word. IsNextWord bytes.now from word.at word.bytes.now) }
{
    let (_, rest) = bytes.split_at(from);
    let Some(gap) = first_solid(rest) else {
        return None;
    };
    let at = from + gap;
    let (_, rest) = rest.split_at(gap);
    match first_blank(rest) {
        Some(len) => {
            let (bytes, _) = rest.split_at(len);
            Some(Word { at, bytes })
        }
        None => Some(Word { at, bytes: rest }),
    }
}

fn first_solid(bytes: &[u8]) -> Option<usize>
    ensures { result ≡ position (λ b. not (is_blank b)) bytes.now }
{
    bytes.iter().position(|b| !is_blank(*b))
}

fn first_blank(bytes: &[u8]) -> Option<usize>
    ensures { result ≡ position is_blank bytes.now }
{
    bytes.iter().position(|b| is_blank(*b))
}
