ghost use Rattle.std.specs.Prelude.{◌≡◌, ◌∷◌, ◌++◌, ℕ, List, IfErr, IfOk, MatchOption, MatchResult};
ghost use Rattle.std.specs.Prelude.{OnOk};
ghost use Rattle.std.specs.Str.{IsUtf8};
ghost use Rattle.config_text.specs.AssignFaults.{FirstFault};
ghost use Rattle.config_text.specs.Assignments.{Says};
ghost use Rattle.config_text.specs.Known.{Knows, value_of};
ghost use Rattle.config_text.specs.Reading.{Assigns, BeginsWord, HasByte, ItemFault, Skips};
ghost use Rattle.config_text.specs.Reading.{ReadsItem, listed};
ghost use Rattle.config_text.specs.declared.assignment.Assignment.{Assignment};
ghost use Rattle.config_text.specs.declared.fault.TextFault.TheVariants.{Memory};

use crate::fault::TextFault;
use crate::head::{first, key_before};
use crate::known::Known;
use crate::stretch::{Stretch, cut};
use crate::utf8::{line_after, text_of};
use crate::value::{ValueEnd, read_value};
use basics::{Text, is_blank};
use std::alloc::{AllocError, Global};

/// An assignment of a text, such as `USE="doc -x"`.
#[derive(Debug, Drop)]
pub struct Assignment {
    /// The line of the key.
    pub line: u32,
    pub key: Text,
    /// Without its quotes, and with the values of its variables in their places.
    pub value: Text,
}

/// The assignments of a text such as make.conf, in their order (PMS 5.2.4, with runs of bare text).
/// A variable stands for its last value so far in this text, else in `before`, else for nothing.
pub fn assignments(
    alloc: Global,
    bytes: &[u8],
    before: &[Assignment],
) -> Result<Vec<Assignment>, TextFault>
    ensures found { IfOk result (λ v. Says before.now bytes.now v.items) }
    ensures utf8 { OnOk result (IsUtf8 bytes.now) }
    ensures only { (said : List Assignment) → IsUtf8 bytes.now → Says before.now bytes.now said →
        MatchResult result (λ v. v.items ≡ said) (λ e. e ≡ Memory) }
    ensures fault { IfErr result (FirstFault bytes.now) }
{
    let text = match text_of(bytes) {
        Ok(text) => text,
        Err(line) => return Err(TextFault::NotUtf8 { line }),
    };
    let mut known = Known::new(alloc, before)?;
    let mut found = Vec::new(alloc);
    let mut rest = text.as_bytes();
    let mut line = 1;
    while !rest.is_empty() {
        let step = match read_item(alloc, rest, line, &known) {
            Ok(step) => step,
            Err(fault) => return Err(fault),
        };
        let Step { assignment, behind } = step;
        keep(alloc, &mut known, &mut found, assignment)?;
        line = line_after(line, rest, behind);
        rest = behind;
    }
    Ok(found)
}

/// Puts an assignment behind those that were found, and among those that are known.
fn keep(
    alloc: Global,
    known: &mut Known,
    found: &mut Vec<Assignment>,
    assignment: Option<Assignment>,
) -> Result<(), AllocError>
    ensures found { OnOk result (found.new.items ≡ found.old.items ++ listed assignment) }
    ensures known { OnOk result ((all : List Assignment) → Knows known.old.values all →
        Knows known.new.values (all ++ listed assignment)) }
{
    if let Some(assignment) = assignment {
        known.add(alloc, &assignment)?;
        found.push(assignment)?;
    }
    Ok(())
}

/// What an item is, and what stands behind it.
struct Step<'a> {
    assignment: Option<Assignment>,
    behind: &'a [u8],
}

/// Reads the item at the head of the text, which stands in the line.
fn read_item<'a>(
    alloc: Global,
    text: &'a [u8],
    line: u32,
    known: &Known,
) -> Result<Step<'a>, TextFault>
    requires byte { HasByte text.now }
    requires utf8 { IsUtf8 text.now }
    ensures found { IfOk result (λ s. ReadsItem (value_of known.now.values) line text.now
        s.behind.now s.assignment) }
    ensures fault { IfErr result (ItemFault line text.now) }
{
    match skipped(text) {
        Some(behind) => Ok(Step {
            assignment: None,
            behind,
        }),
        None => read_assignment(alloc, text, line, known),
    }
}

/// What stands behind the white space or the comment at the head of the text.
fn skipped(text: &[u8]) -> Option<&[u8]>
    requires byte { HasByte text.now }
    requires utf8 { IsUtf8 text.now }
    ensures { MatchOption result (BeginsWord text.now) (λ rest. Skips text.now rest.now) }
{
    match first(text) {
        Some((byte, rest)) if is_blank(byte) => Some(rest),
        Some((b'#', rest)) => {
            let (_, rest) = cut(Stretch::Line, rest);
            Some(rest)
        }
        _ => None,
    }
}

fn read_assignment<'a>(
    alloc: Global,
    text: &'a [u8],
    line: u32,
    known: &Known,
) -> Result<Step<'a>, TextFault>
    requires word { BeginsWord text.now }
    requires utf8 { IsUtf8 text.now }
    ensures found { IfOk result (λ s. ReadsItem (value_of known.now.values) line text.now
        s.behind.now s.assignment) }
    ensures fault { IfErr result (ItemFault line text.now) }
{
    let Some((key, rest)) = key_before(b'=', text) else {
        return Err(TextFault::BadKey { line });
    };
    let mut value = Vec::new(alloc);
    match read_value(rest, known, &mut value)? {
        ValueEnd::Open(quote) => Err(TextFault::OpenQuote {
            line: line_after(line, text, quote),
        }),
        ValueEnd::Closed(behind) => {
            let key = copy(alloc, key)?;
            let value = copy(alloc, &value)?;
            Ok(Step {
                assignment: Some(Assignment { line, key, value }),
                behind,
            })
        }
    }
}

fn copy(alloc: Global, bytes: &[u8]) -> Result<Text, AllocError>
    requires { IsUtf8 bytes.now }
    ensures { IfOk result (λ t. t ≡ bytes.now) }
{
    let Ok(text) = str::from_utf8(bytes) else {
        unreachable!()
    };
    Text::new(alloc, text)
}
