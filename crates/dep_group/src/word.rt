ghost use Rattle.std.specs.Prelude.{◌≡◌, ◌≤◌, ◌++◌, map, IfOk, OnOk};
ghost use Rattle.std.specs.Str.{IsCharBoundary};
ghost use Rattle.dep_group.specs.Words.{place, word_between, words};
ghost use Rattle.dep_group.specs.Views.{spot};

use basics::is_blank;
use std::alloc::{AllocError, Global};

/// A word of a text, and the place of its first byte there.
#[derive(Debug, Drop, Clone, Copy)]
pub struct Word<'a> {
    pub at: usize,
    pub text: &'a str,
}

/// The words of the text, from the left.
pub fn words<'a>(alloc: Global, text: &'a str) -> Result<Vec<Word<'a>>, AllocError>
    ensures { IfOk result (λ v. map spot v.items ≡ words 0 text.now) }
{
    let mut found = Vec::new(alloc);
    let mut start = 0;
    let bytes = text.as_bytes();
    for (i, b) in bytes.iter().enumerate() {
        if is_blank(*b) {
            push_word(&mut found, text, start, i)?;
            start = i + 1;
        }
    }
    push_word(&mut found, text, start, text.len())?;
    Ok(found)
}

fn push_word<'a>(
    found: &mut Vec<Word<'a>>,
    text: &'a str,
    start: usize,
    end: usize,
) -> Result<(), AllocError>
    requires order { start ≤ end }
    requires from { IsCharBoundary text.now start }
    requires to { IsCharBoundary text.now end }
    ensures { OnOk result (map spot found.new.items ≡
        map spot found.old.items ++ word_between text.now start end) }
{
    if start < end {
        found.push(Word {
            at: start,
            text: &text[start..end],
        })?;
    }
    Ok(())
}

/// The place of the word with this index, or 0 where there are not so many.
pub fn place(words: &[Word], index: usize) -> usize
    ensures { result ≡ place (map spot words.now) index }
{
    if index < words.len() {
        words[index].at
    } else {
        0
    }
}
