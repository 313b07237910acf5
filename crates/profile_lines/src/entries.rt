ghost use Rattle.std.specs.Prelude.{◌≡◌, ◌⊎◌, IfErr, IfOk, List};
ghost use Rattle.dep_group.specs.Words.{words_of};
ghost use Rattle.profile_lines.specs.Faults.{FirstBad, IsBadBy, fault_at, out_of_memory};
ghost use Rattle.profile_lines.specs.Items.{AreEntries, IsEntry, Says};
ghost use Rattle.profile_lines.specs.declared.fault.LineFault.TheVariants.{Memory};
ghost use Rattle.profile_lines.specs.declared.item.Entry.{Entry as EntryValue};

use crate::fault::{LineFault, ReadFault};
use crate::item::{Entry, Form};
use crate::words::read_words;
use dep_group::words;
use profile_folders::{FileLine, ProfileFault};
use std::alloc::{AllocError, Global};

/// What the lines of a file of this form say, line by line.
pub fn read_entries(alloc: Global, form: Form, lines: &[FileLine]) -> Result<Vec<Entry>, ReadFault>
    ensures found { IfOk result (λ v. AreEntries form lines.now v.items) }
    ensures only { (those : List EntryValue) → AreEntries form lines.now those →
        IfErr result (λ e. e ≡ out_of_memory) }
    ensures fault { IfErr result (λ e. (e ≡ out_of_memory) ⊎ FirstBad form lines.now e) }
{
    let mut entries = Vec::new(alloc);
    for line in lines {
        match entry_of(alloc, form, line) {
            Ok(entry) => entries.push(entry)?,
            Err(fault) => return Err(located(line, fault)?),
        }
    }
    Ok(entries)
}

/// What the line says.
fn entry_of(alloc: Global, form: Form, line: &FileLine) -> Result<Entry, LineFault>
    ensures found { IfOk result (IsEntry form line.now) }
    ensures fault { IfErr result (λ e. (e ≡ Memory) ⊎ IsBadBy form (words_of line.now.text) e) }
{
    let words = words(alloc, line.text.as_str())?;
    read_words(alloc, form, &words)
}

/// What the fault of the line is called.
fn located(line: &FileLine, fault: LineFault) -> Result<ReadFault, AllocError>
    ensures { IfOk result (λ e. e ≡ fault_at line.now fault) }
{
    match fault {
        LineFault::NoAtom => Ok(ReadFault::Atom {
            path: line.file.try_clone()?,
            line: line.number,
        }),
        LineFault::NoChange => Ok(ReadFault::Profile(ProfileFault::Text {
            path: line.file.try_clone()?,
            line: line.number,
        })),
        LineFault::Memory => Err(AllocError),
    }
}
