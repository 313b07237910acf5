ghost use Rattle.std.specs.Prelude.{◌≡◌, List, IfErr, IfOk, MatchBool, MatchResult};
ghost use Rattle.vdb_contents.specs.Contents.{FirstFault, TellsOwned, unless_dropped};
ghost use Rattle.vdb_contents.specs.Reading.{Adds, Bars, Goes, Stops};
ghost use Rattle.vdb_contents.specs.declared.fault.ContentsFault.TheVariants.{Memory};
ghost use Rattle.vdb_contents.specs.declared.owned.Owned.{Owned as OwnedPath};

use crate::cuts::first_line;
use crate::dropped::is_dropped;
use crate::fault::ContentsFault;
use crate::line::{Item, read_line};
use crate::owned::Owned;
use file_tree::TakenPaths;
use std::alloc::{AllocError, Global};

/// What the text of CONTENTS tells: the paths that the package owns, in the order of their lines.
pub fn read_contents(alloc: Global, text: &[u8]) -> Result<Vec<Owned>, ContentsFault>
    ensures found { IfOk result (λ v. TellsOwned text.now v.items) }
    ensures only { (owned : List OwnedPath) → TellsOwned text.now owned →
        MatchResult result (λ v. v.items ≡ owned) (λ e. e ≡ Memory) }
    ensures fault { IfErr result (FirstFault text.now) }
{
    let mut reading = Reading {
        taken: TakenPaths::new(alloc),
        owned: Vec::new(alloc),
    };
    let mut rest = text;
    let mut number = 0;
    while let Some((line, behind)) = first_line(rest) {
        number += 1;
        if !reading.add(alloc, line)? {
            return Err(ContentsFault::Line { number });
        }
        rest = behind;
    }
    Ok(reading.owned)
}

/// The paths that the lines so far own.
#[derive(Drop)]
struct Reading {
    taken: TakenPaths,
    owned: Vec<Owned>,
}

impl Reading {
    /// Puts what a line owns behind the rest. Answers whether the line is good; where it is not,
    /// nothing changes.
    fn add(&mut self, alloc: Global, line: &[u8]) -> Result<bool, AllocError>
        ensures { IfOk result (λ good. MatchBool good
            (Goes line.now self.old.taken self.old.owned.items self.new.taken self.new.owned.items)
            (Stops line.now self.old.taken)) }
    {
        match read_line(alloc, line)? {
            Some(Item::Owned(owned)) => self.add_owned(alloc, owned),
            Some(Item::Folder) => Ok(true),
            None => Ok(false),
        }
    }

    fn add_owned(&mut self, alloc: Global, owned: Owned) -> Result<bool, AllocError>
        ensures { IfOk result (λ good. MatchBool good
            (Adds (unless_dropped owned) self.old.taken self.old.owned.items self.new.taken
            self.new.owned.items)
            (Bars (unless_dropped owned) self.old.taken)) }
    {
        if is_dropped(owned.path.text().as_bytes()) {
            return Ok(true);
        }
        if !self.taken.take(alloc, &owned.path)? {
            return Ok(false);
        }
        self.owned.push(owned)?;
        Ok(true)
    }
}
