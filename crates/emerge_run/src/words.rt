ghost use Rattle.std.specs.Prelude.{IfErr, IfOk, map, string_bytes};
ghost use Rattle.emerge_run.specs.Words.{EndsAtWords, IsRequest};

use emerge_find::{Asked, asked_of};
use emerge_words::read;
use merge_report::{Part, Status};
use std::alloc::Global;

/// Reads the words of a run as what they ask of a merge.
pub fn read_request(alloc: Global, words: &[String]) -> Result<Asked, Status>
    ensures found { IfOk result (IsRequest (map string_bytes words.now)) }
    ensures refused { IfErr result (EndsAtWords (map string_bytes words.now)) }
{
    let request = read(alloc, words)?;
    match asked_of(request) {
        Some(asked) => Ok(asked),
        None => Err(Status::NotBuilt {
            what: Part::Command,
        }),
    }
}
