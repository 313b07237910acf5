ghost use Rattle.std.specs.Prelude.{◌≡◌, ◌++◌, codes, false, true};
ghost use Rattle.std.specs.Prelude.{IfOk, MatchOption};
ghost use Rattle.std.specs.List.{list_all};
ghost use Rattle.basics.specs.Bytes.{is_digit};
ghost use Rattle.vdb_contents.specs.Contents.{is_time};
ghost use Rattle.vdb_contents.specs.Cuts.{IsFileParts, IsLinkParts, NoFileParts, NoLinkParts};
ghost use Rattle.vdb_contents.specs.Reading.{Reads};
ghost use Rattle.file_link.specs.Targets.{is_target};

use crate::cuts::{split_arrow, split_last_space};
use crate::owned::{Content, Owned};
use basics::{Text, is_digit};
use file_digest::digest_from;
use file_link::is_target;
use file_tree::path_from;
use std::alloc::{AllocError, Global};
use std::str::from_utf8;

/// What a line names.
#[derive(Debug, Drop)]
pub(crate) enum Item {
    Owned(Owned),
    Folder,
}

/// The item of a line, if it is one.
pub(crate) fn read_line(alloc: Global, text: &[u8]) -> Result<Option<Item>, AllocError>
    ensures { IfOk result (Reads text.now) }
{
    if let Some(rest) = text.strip_prefix(b"obj /") {
        return read_file(alloc, rest);
    }
    if let Some(rest) = text.strip_prefix(b"sym /") {
        return read_link(alloc, rest);
    }
    if let Some(rest) = text.strip_prefix(b"dir /") {
        return read_folder(alloc, rest);
    }
    Ok(None)
}

/// The same of a line for a file, by what stands behind its first slash.
fn read_file(alloc: Global, rest: &[u8]) -> Result<Option<Item>, AllocError>
    ensures { IfOk result (Reads (codes "obj /" ++ rest.now)) }
{
    let Some((path, digits, time)) = file_parts(rest) else {
        return Ok(None);
    };
    if !is_time(time) {
        return Ok(None);
    }
    let Some(md5) = digest_from(digits) else {
        return Ok(None);
    };
    let Some(path) = path_from(alloc, path)? else {
        return Ok(None);
    };
    let content = Content::File { md5 };
    Ok(Some(Item::Owned(Owned { path, content })))
}

/// The same of a line for a link.
fn read_link(alloc: Global, rest: &[u8]) -> Result<Option<Item>, AllocError>
    ensures { IfOk result (Reads (codes "sym /" ++ rest.now)) }
{
    let Some((path, target, time)) = link_parts(rest) else {
        return Ok(None);
    };
    if !is_time(time) {
        return Ok(None);
    }
    let Some(target) = target_from(alloc, target)? else {
        return Ok(None);
    };
    let Some(path) = path_from(alloc, path)? else {
        return Ok(None);
    };
    let content = Content::Link { target };
    Ok(Some(Item::Owned(Owned { path, content })))
}

/// The same of a line for a folder.
fn read_folder(alloc: Global, rest: &[u8]) -> Result<Option<Item>, AllocError>
    ensures { IfOk result (Reads (codes "dir /" ++ rest.now)) }
{
    let Some(_path) = path_from(alloc, rest)? else {
        return Ok(None);
    };
    Ok(Some(Item::Folder))
}

/// The path, the digest's digits and the time.
fn file_parts(rest: &[u8]) -> Option<(&[u8], &[u8], &[u8])>
    ensures { MatchOption result (NoFileParts rest.now)
        (λ x. IsFileParts rest.now x.0.now x.1.now x.2.now) }
{
    let (front, time) = split_last_space(rest)?;
    let (path, digits) = split_last_space(front)?;
    Some((path, digits, time))
}

/// The path, the target and the time. No path has an arrow, but a target may.
fn link_parts(rest: &[u8]) -> Option<(&[u8], &[u8], &[u8])>
    ensures { MatchOption result (NoLinkParts rest.now)
        (λ x. IsLinkParts rest.now x.0.now x.1.now x.2.now) }
{
    let (front, time) = split_last_space(rest)?;
    let (path, behind) = split_arrow(front)?;
    let target = behind.strip_prefix(b" ")?;
    Some((path, target, time))
}

fn is_time(text: &[u8]) -> bool
    ensures { result ≡ is_time text.now }
{
    !text.is_empty() && are_digits(text)
}

fn are_digits(text: &[u8]) -> bool
    ensures { result ≡ list_all is_digit text.now }
{
    text.iter().all(|b| is_digit(*b))
}

fn target_from(alloc: Global, text: &[u8]) -> Result<Option<Text>, AllocError>
    ensures { IfOk result (λ r. MatchOption r (is_target text.now ≡ false)
        (λ t. (t ≡ text.now) × (is_target text.now ≡ true))) }
{
    if !is_target(text) {
        return Ok(None);
    }
    match from_utf8(text) {
        Ok(text) => Ok(Some(Text::new(alloc, text)?)),
        Err(_) => Ok(None),
    }
}
