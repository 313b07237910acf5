ghost use Rattle.std.specs.Prelude.{◌≡◌, IfOk, MatchOption, None, Some, [], if◌then◌else◌, map};
ghost use Rattle.profile_folders.specs.Places.{around, begins_at_top, followed, is_here, led};
ghost use Rattle.profile_folders.specs.Places.{link_place, parts, path_of, path_with, place};
ghost use Rattle.profile_folders.specs.Places.{place_from};

use file_tree::{Path, PathFault};
use std::alloc::{AllocError, Global};

/// The path to which a relative text leads from the folder, if it leads to one.
pub(crate) fn place_from(
    alloc: Global,
    folder: &Path,
    text: &str,
) -> Result<Option<Path>, AllocError>
    ensures { IfOk result (λ r. MatchOption r (place_from folder.now text.now ≡ None)
        (λ p. place_from folder.now text.now ≡ Some p)) }
{
    if begins_at_top(text.as_bytes()) {
        return Ok(None);
    }
    place(alloc, parts(alloc, folder.text())?, text)
}

/// The path to which a link at the path leads, if it leads to one.
pub(crate) fn link_place(
    alloc: Global,
    path: &Path,
    target: &str,
) -> Result<Option<Path>, AllocError>
    ensures { IfOk result (λ r. MatchOption r (link_place path.now target.now ≡ None)
        (λ p. link_place path.now target.now ≡ Some p)) }
{
    if target == "" {
        return Ok(None);
    }
    if begins_at_top(target.as_bytes()) {
        return place(alloc, Vec::new(alloc), target);
    }
    let mut folder = parts(alloc, path.text())?;
    if !leave(&mut folder) {
        return Ok(None);
    }
    place(alloc, folder, target)
}

fn begins_at_top(text: &[u8]) -> bool
    ensures { result ≡ begins_at_top text.now }
{
    match text {
        [first, ..] => *first == b'/',
        [] => false,
    }
}

/// The parts of a text between its slashes.
fn parts(alloc: Global, text: &str) -> Result<Vec<&str>, AllocError>
    ensures { IfOk result (λ v. map (λ x. x.now) v.items ≡ parts text.now) }
{
    text.split('/').collect(alloc)
}

/// The path to which the text leads from the folder of these parts.
fn place<'a>(
    alloc: Global,
    mut folder: Vec<&'a str>,
    text: &'a str,
) -> Result<Option<Path>, AllocError>
    ensures { IfOk result (λ r.
        MatchOption r (place (map (λ x. x.now) folder.entry.items) text.now ≡ None)
        (λ p. place (map (λ x. x.now) folder.entry.items) text.now ≡ Some p)) }
{
    let steps = parts(alloc, text)?;
    if !follow_all(&mut folder, &steps)? {
        return Ok(None);
    }
    path_with(alloc, &folder)
}

/// Follows these parts, unless one leads above the top.
fn follow_all<'a>(at: &mut Vec<&'a str>, steps: &[&'a str]) -> Result<bool, AllocError>
    ensures { IfOk result (λ b.
        led (map (λ x. x.now) at.old.items) (map (λ x. x.now) steps.now)
        ≡ (if b then Some (map (λ x. x.now) at.new.items) else None)) }
{
    for step in steps {
        if !follow(at, step)? {
            return Ok(false);
        }
    }
    Ok(true)
}

/// Follows one part, unless it leads above the top.
fn follow<'a>(at: &mut Vec<&'a str>, step: &'a str) -> Result<bool, AllocError>
    ensures { IfOk result (λ b. followed (map (λ x. x.now) at.old.items) step.now
        ≡ (if b then Some (map (λ x. x.now) at.new.items) else None)) }
{
    if is_here(step) {
        return Ok(true);
    }
    if step == ".." {
        return Ok(leave(at));
    }
    at.push(step)?;
    Ok(true)
}

fn is_here(step: &str) -> bool
    ensures { result ≡ is_here step.now }
{
    step == "" || step == "."
}

/// Goes to the folder around this one, unless this one is the top.
fn leave(at: &mut Vec<&str>) -> bool
    ensures { around (map (λ x. x.now) at.old.items)
        ≡ (if result then Some (map (λ x. x.now) at.new.items) else None) }
{
    at.pop().is_some()
}

/// The path that has these parts, if one has.
fn path_with(alloc: Global, these: &[&str]) -> Result<Option<Path>, AllocError>
    ensures { IfOk result (λ r. MatchOption r (path_with (map (λ x. x.now) these.now) ≡ None)
        (λ p. path_with (map (λ x. x.now) these.now) ≡ Some p)) }
{
    let text = these.join(alloc, "/")?;
    path_of(alloc, text.as_str())
}

/// The path that the text is, if it is one.
pub(crate) fn path_of(alloc: Global, text: &str) -> Result<Option<Path>, AllocError>
    ensures { IfOk result (λ r. MatchOption r (path_of text.now ≡ None)
        (λ p. path_of text.now ≡ Some p)) }
{
    match Path::parse(alloc, text) {
        Ok(path) => Ok(Some(path)),
        Err(fault) => match fault {
            PathFault::Memory => Err(AllocError),
            _ => Ok(None),
        },
    }
}
