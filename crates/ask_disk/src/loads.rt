//! What claims, groups and recoveries are timed on, of so many paths.

ghost use Rattle.std.specs.Prelude.{◌≡◌, [], IfOk, length};

use file_tree::{Entry, Kind, Object, Path};
use merge_group::{Files, Turn};
use merge_record::{OwnerKey, Placement, Record, digest_of, encode};
use merge_site::SiteGroup;
use owner_book::{OwnerBook, Wish};
use std::alloc::{AllocError, Global};

/// The path of a file below this folder, a hundred in a folder.
fn path_of(alloc: Global, folder: &str, number: u32) -> Result<Path, AllocError> {
    let part = number / 100;
    let text = format!(in alloc; "{folder}/{part}/file-{number}")?;
    Path::parse(alloc, text.as_str()).map_err(|_| AllocError)
}

/// A book in which one package owns so many paths.
pub fn book_of(alloc: Global, paths: u32) -> Result<OwnerBook, AllocError>
    ensures { IfOk result (λ b. b.claims ≡ []) }
{
    let mut owned = Vec::new(alloc);
    for number in 0..paths {
        owned.push(path_of(alloc, "opt", number)?)?;
    }
    let packages = [(OwnerKey { number: 7 }, owned)];
    OwnerBook::from_records(alloc, &packages).map_err(|_| AllocError)
}

/// So many paths that a package wishes.
pub fn wishes_of(alloc: Global, paths: u32) -> Result<Vec<Wish>, AllocError> {
    let mut wishes = Vec::new(alloc);
    for number in 0..paths {
        wishes.push(Wish {
            path: path_of(alloc, "usr", number)?,
            owner: OwnerKey { number: 9 },
            folder: false,
        })?;
    }
    Ok(wishes)
}

fn files_of(alloc: Global, paths: u32) -> Result<Files, AllocError> {
    let mut image = Vec::new(alloc);
    for number in 0..paths {
        image.push(Entry {
            path: path_of(alloc, "usr", number)?,
            object: Object {
                kind: Kind::Plain,
                bytes: Vec::new(alloc),
            },
        })?;
    }
    Ok(Files {
        owner: OwnerKey { number: 9 },
        image,
        folder: Vec::new(alloc),
    })
}

/// The turn of one group that places so many empty files.
pub fn turn_of(alloc: Global, paths: u32) -> Result<Turn, AllocError>
    ensures { IfOk result (λ t. t.group ≡ 0) }
{
    let files = files_of(alloc, paths)?;
    Ok(Turn {
        group: 0,
        removals: Vec::new(alloc),
        packages: vec![in alloc; files]?,
    })
}

/// What a site of one group is opened for.
pub fn one_group(alloc: Global) -> Result<Vec<SiteGroup>, AllocError>
    ensures { IfOk result (λ v. length v.items ≡ 1) }
{
    let group = SiteGroup {
        after: Vec::new(alloc),
        dying: Vec::new(alloc),
        line: Vec::new(alloc),
    };
    Ok(vec![in alloc; group]?)
}

/// The record of a group that places so many empty files.
pub fn filed_of(alloc: Global, paths: u32) -> Result<Vec<u8>, AllocError> {
    let mut placements = Vec::new(alloc);
    for number in 0..paths {
        placements.push(Placement {
            path: path_of(alloc, "usr", number)?,
            kind: Kind::Plain,
            length: 0,
            md5: digest_of(&[]),
        })?;
    }
    let record = Record {
        group: 0,
        removals: Vec::new(alloc),
        placements,
    };
    encode(alloc, &record).map_err(|_| AllocError)
}
