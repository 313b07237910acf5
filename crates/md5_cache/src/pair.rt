ghost use Rattle.std.specs.Prelude.{◌≡◌, IfErr, IfOk, MatchOption, OnOk, map};
ghost use Rattle.std.specs.List.{AllByRecursion};
ghost use Rattle.md5_cache.specs.PairFaults.{FirstFault, LinesFault};
ghost use Rattle.md5_cache.specs.Pairs.{HasEquals, IsPairsText, IsSplit, entry_lines, pair_of};
ghost use Rattle.md5_cache.specs.Pairs.{pairs_of};
ghost use Rattle.md5_cache.specs.declared.fault.PairFault.TheVariants.{Memory};

use crate::fault::PairFault;
use crate::repeated::first_repeated;
use basics::Text;
use config_text::{line_number, pieces, text_of};
use std::alloc::{AllocError, Global};

/// A line of an entry: what stands on both sides of its first equals sign.
#[derive(Debug, Drop)]
pub struct Pair {
    pub key: Text,
    pub value: Text,
}

/// The pairs of a cache entry's text, line by line.
pub fn pairs(alloc: Global, bytes: &[u8]) -> Result<Vec<Pair>, PairFault>
    ensures found { IfOk result (λ v. v.items ≡ pairs_of bytes.now) }
    ensures form { OnOk result (IsPairsText bytes.now) }
    ensures only { IsPairsText bytes.now → IfErr result (λ e. e ≡ Memory) }
    ensures fault { IfErr result (FirstFault bytes.now) }
{
    let text = match text_of(bytes) {
        Ok(text) => text,
        Err(_) => return Err(PairFault::NotUtf8),
    };
    let lines = entry_lines(alloc, text)?;
    let pairs = match read_lines(alloc, &lines) {
        Ok(pairs) => pairs,
        Err(fault) => return Err(fault),
    };
    match first_repeated(alloc, &pairs)? {
        Some(key) => Err(PairFault::Repeated {
            key: key.try_clone()?,
        }),
        None => Ok(pairs),
    }
}

fn entry_lines(alloc: Global, text: &str) -> Result<Vec<&str>, AllocError>
    ensures { IfOk result (λ v. map (λ x. x.now) v.items ≡ entry_lines text.now) }
{
    let mut lines = pieces(alloc, text)?;
    if let Some(last) = lines.pop() {
        if !last.is_empty() {
            lines.push(last)?;
        }
    }
    Ok(lines)
}

fn read_lines(alloc: Global, lines: &[&str]) -> Result<Vec<Pair>, PairFault>
    ensures found { IfOk result (λ v. v.items ≡ map pair_of (map (λ x. x.now) lines.now)) }
    ensures split { OnOk result (AllByRecursion HasEquals (map (λ x. x.now) lines.now)) }
    ensures fault { IfErr result (LinesFault (map (λ x. x.now) lines.now)) }
{
    let mut pairs = Vec::new(alloc);
    for (at, line) in lines.iter().enumerate() {
        let Some((key, value)) = split(line) else {
            return Err(PairFault::NoEquals {
                line: line_number(at),
            });
        };
        pairs.push(Pair {
            key: Text::new(alloc, key)?,
            value: Text::new(alloc, value)?,
        })?;
    }
    Ok(pairs)
}

fn split(line: &str) -> Option<(&str, &str)>
    ensures { MatchOption result (¬ HasEquals line.now) (λ r. IsSplit line.now r.0.now r.1.now) }
{
    line.split_once('=')
}
