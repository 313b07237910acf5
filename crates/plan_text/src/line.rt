ghost use Rattle.std.specs.Prelude.{◌≡◌, IfOk, map};
ghost use Rattle.std.specs.List.{slice_split};
ghost use Rattle.plan_text.specs.Lines.{head_text};
ghost use Rattle.plan_text.specs.Reading.{ReadsLine, ReadsSaid, is_space};

use crate::kind::Kind;
use crate::number::read_number;
use crate::plan::Removal;
use crate::words::{first_word, only_word, read_addition, read_bind, read_numbers, read_removal};
use build_pool::Order;
use dep_atom::Bind;
use std::alloc::{AllocError, Global};

/// What a line says.
#[derive(Debug, Drop)]
pub(crate) enum Line {
    Plan,
    Group(u32),
    After(Vec<u32>),
    Remove(Removal),
    /// Its binds have lines of their own.
    Add(Order),
    Bind(Bind),
}

/// The line that a text is, if it is one.
pub(crate) fn read_line(alloc: Global, text: &str) -> Result<Option<Line>, AllocError>
    ensures { IfOk result (ReadsLine text.now) }
{
    let words = words(alloc, text)?;
    let Some((head, said)) = first_word(&words) else {
        return Ok(None);
    };
    let Some(kind) = Kind::of_head(head) else {
        return Ok(None);
    };
    match kind {
        Kind::Plan => Ok(read_plan(said)),
        Kind::Group => Ok(read_group(said)),
        Kind::After => read_after(alloc, said),
        Kind::Remove => read_remove(alloc, said),
        Kind::Add => read_add(alloc, said),
        Kind::Bind => read_bound(alloc, said),
    }
}

/// What stands between the spaces of a text.
pub(crate) fn words(alloc: Global, text: &str) -> Result<Vec<&str>, AllocError>
    ensures { IfOk result (λ v. map (λ w. w.now) v.items ≡ slice_split is_space text.now) }
{
    text.split(' ').collect(alloc)
}

fn read_plan(said: &[&str]) -> Option<Line>
    ensures { ReadsSaid Kind.Plan (map (λ w. w.now) said.now) result }
{
    let Some(word) = only_word(said) else {
        return None;
    };
    if word != "1" {
        return None;
    }
    Some(Line::Plan)
}

fn read_group(said: &[&str]) -> Option<Line>
    ensures { ReadsSaid Kind.Group (map (λ w. w.now) said.now) result }
{
    let Some(word) = only_word(said) else {
        return None;
    };
    match read_number(word) {
        Some(number) => Some(Line::Group(number)),
        None => None,
    }
}

fn read_after(alloc: Global, said: &[&str]) -> Result<Option<Line>, AllocError>
    ensures { IfOk result (ReadsSaid Kind.After (map (λ w. w.now) said.now)) }
{
    match read_numbers(alloc, said)? {
        Some(numbers) => Ok(Some(Line::After(numbers))),
        None => Ok(None),
    }
}

fn read_remove(alloc: Global, said: &[&str]) -> Result<Option<Line>, AllocError>
    ensures { IfOk result (ReadsSaid Kind.Remove (map (λ w. w.now) said.now)) }
{
    let Some(word) = only_word(said) else {
        return Ok(None);
    };
    match read_removal(alloc, word)? {
        Some(removal) => Ok(Some(Line::Remove(removal))),
        None => Ok(None),
    }
}

fn read_add(alloc: Global, said: &[&str]) -> Result<Option<Line>, AllocError>
    ensures { IfOk result (ReadsSaid Kind.Add (map (λ w. w.now) said.now)) }
{
    match read_addition(alloc, said)? {
        Some(addition) => Ok(Some(Line::Add(addition))),
        None => Ok(None),
    }
}

fn read_bound(alloc: Global, said: &[&str]) -> Result<Option<Line>, AllocError>
    ensures { IfOk result (ReadsSaid Kind.Bind (map (λ w. w.now) said.now)) }
{
    let Some(word) = only_word(said) else {
        return Ok(None);
    };
    match read_bind(alloc, word)? {
        Some(bind) => Ok(Some(Line::Bind(bind))),
        None => Ok(None),
    }
}
