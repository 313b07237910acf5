ghost use Rattle.std.specs.Prelude.{◌≡◌, ◌++◌, IfOk, OnOk, map};
ghost use Rattle.vdb_contents.specs.Contents.{contents_text, ended, line_text, written_line};
ghost use Rattle.vdb_files.specs.Written.{AreInOrder};

use std::alloc::{AllocError, Global};
use vdb_contents::{Content, Owned};

/// The text of CONTENTS, with a line for each of the paths in their order.
pub(crate) fn text_of_contents(alloc: Global, owned: &[&Owned]) -> Result<Vec<u8>, AllocError>
    ensures { IfOk result (λ t. t.items ≡ contents_text (map (λ o. o.now) owned.now)) }
{
    let mut text = Vec::new(alloc);
    for one in owned {
        push_line(alloc, one, &mut text)?;
    }
    Ok(text)
}

/// Puts the line of a path behind a text. No time is recorded.
fn push_line(alloc: Global, owned: &Owned, text: &mut Vec<u8>) -> Result<(), AllocError>
    ensures { OnOk result
        (text.new.items ≡ text.old.items ++ ended (line_text (written_line owned.now))) }
{
    match &owned.content {
        Content::File { md5 } => {
            let hex = hex::encode(alloc, md5.as_slice())?;
            text.extend_from_slice(b"obj /")?;
            text.extend_from_slice(owned.path.text().as_bytes())?;
            text.extend_from_slice(b" ")?;
            text.extend_from_slice(hex.as_bytes())?;
        }
        Content::Link { target } => {
            text.extend_from_slice(b"sym /")?;
            text.extend_from_slice(owned.path.text().as_bytes())?;
            text.extend_from_slice(b" -> ")?;
            text.extend_from_slice(target.as_str().as_bytes())?;
        }
    }
    text.extend_from_slice(b" 0\n")
}

/// The paths in byte order.
pub(crate) fn in_order(alloc: Global, owned: &[Owned]) -> Result<Vec<&Owned>, AllocError>
    ensures { IfOk result (λ v. AreInOrder owned.now (map (λ o. o.now) v.items)) }
{
    let mut sorted = all_of(alloc, owned)?;
    sorted.sort_by(|a, b| a.path.cmp(&b.path))?;
    Ok(sorted)
}

/// Each of the paths.
fn all_of(alloc: Global, owned: &[Owned]) -> Result<Vec<&Owned>, AllocError>
    ensures { IfOk result (λ v. map (λ o. o.now) v.items ≡ owned.now) }
{
    owned.iter().collect(alloc)
}
