//! The claims of two groups, one behind the other, by one book.

ghost use Rattle.std.specs.Prelude.{◌≡◌, [], IfOk};

use crate::cases::{book, brought, paths, said};
use crate::outcomes::push_fault;
use ask_lines::{cut, small_number_of};
use file_tree::Path;
use merge_record::OwnerKey;
use owner_book::{ClaimFault, OwnerBook, Wish};
use std::alloc::{AllocError, Global};
use std::io;

/// What each claim is told, who then owns each path that is asked for, and what each package owns
/// that is asked for.
pub fn answer(alloc: Global, fields: &str) -> io::Result<String> {
    let looked = paths(alloc, fields, "look")?;
    let first = wishes(alloc, fields, "claim")?;
    let second = wishes(alloc, fields, "again")?;
    let dying = dying(alloc, fields)?;
    let mut text = String::new(alloc);
    let mut book = book(alloc, fields)?;
    claim_both(alloc, &mut text, &mut book, first, second, &dying)?;
    end_first(&mut book, said(fields, "end"));
    push_owners(&mut text, &book, &looked)?;
    push_owned(alloc, &mut text, &book, fields)?;
    Ok(text)
}

/// The packages that go with both groups.
fn dying(alloc: Global, fields: &str) -> io::Result<Vec<OwnerKey>> {
    let mut keys = Vec::new(alloc);
    for field in fields.split('\t') {
        let (what, number) = cut(field, ' ');
        if what == "goes" {
            let number = small_number_of(number)?;
            keys.push(OwnerKey { number })?;
        }
    }
    Ok(keys)
}

/// The paths that package 9 is to own by fields with this word.
fn wishes(alloc: Global, fields: &str, word: &str) -> io::Result<Vec<Wish>> {
    let mut wishes = Vec::new(alloc);
    for path in paths(alloc, fields, word)? {
        wishes.push(Wish {
            path,
            owner: brought(0),
            folder: false,
        })?;
    }
    Ok(wishes)
}

/// Claims for groups 9 and 10 in an empty book, and tells the answers until one is refused.
fn claim_both(
    alloc: Global,
    text: &mut String,
    book: &mut OwnerBook,
    first: Vec<Wish>,
    second: Vec<Wish>,
    dying: &[OwnerKey],
) -> Result<(), AllocError>
    requires { book.old.claims ≡ [] }
{
    if let Err(fault) = book.claim(alloc, 9, first, Vec::new(alloc), dying) {
        return push_fault(text, fault);
    }
    text.push_str("ok\t")?;
    let answer = book.claim(alloc, 10, second, Vec::new(alloc), dying);
    push_answer(text, answer)
}

fn push_answer(text: &mut String, answer: Result<(), ClaimFault>) -> Result<(), AllocError> {
    match answer {
        Ok(()) => text.push_str("ok"),
        Err(fault) => push_fault(text, fault),
    }
}

/// Ends the claim of group 9.
fn end_first(book: &mut OwnerBook, how: &str) {
    match how {
        "settle" => book.settle(9),
        "release" => book.release(9),
        _ => {}
    }
}

fn push_owners(text: &mut String, book: &OwnerBook, looked: &[Path]) -> Result<(), AllocError> {
    for path in looked {
        match book.owner(path) {
            Some(owner) => write!(text, "\t{}", owner.number)?,
            None => text.push_str("\tnobody")?,
        }
    }
    Ok(())
}

/// The paths that each package owns which a field asks for.
fn push_owned(alloc: Global, text: &mut String, book: &OwnerBook, fields: &str) -> io::Result<()> {
    for field in fields.split('\t') {
        let (what, number) = cut(field, ' ');
        if what == "list" {
            let number = small_number_of(number)?;
            let owned = book.paths_of(alloc, OwnerKey { number })?;
            push_paths(text, &owned)?;
        }
    }
    Ok(())
}

fn push_paths(text: &mut String, paths: &[Path]) -> Result<(), AllocError> {
    text.push_str("\t")?;
    for path in paths {
        write!(text, "{};", path.text())?;
    }
    Ok(())
}
