ghost use Rattle.std.specs.Prelude.{◌≡◌, IfOk, map, true};
ghost use Rattle.std.specs.Str.{is_utf8};
ghost use Rattle.merge_fit.specs.Images.{is_good, is_good_by};
ghost use Rattle.merge_fit.specs.Misfits.{AreGood};
ghost use Rattle.law_package.specs.Records.{content_by, owned_of};

use basics::Text;
use file_tree::{Entry, Kind, Object};
use merge_record::digest_of;
use std::alloc::{AllocError, Global};
use std::str::from_utf8;
use vdb_contents::{Content, Owned};

/// What a package records of an object. No group is granted with a link whose target is no text.
fn content_of(alloc: Global, object: &Object) -> Result<Content, AllocError>
    ensures { is_good_by object.now.kind object.now.bytes ≡ true →
        IfOk result (λ c. c ≡ content_by object.now.kind object.now.bytes) }
{
    match object.kind {
        Kind::Plain | Kind::Exec => Ok(Content::File {
            md5: digest_of(&object.bytes),
        }),
        Kind::Link => content_of_link(alloc, &object.bytes),
    }
}

fn content_of_link(alloc: Global, target: &[u8]) -> Result<Content, AllocError>
    ensures { is_utf8 target.now ≡ true → IfOk result (λ c. c ≡ Content.Link target.now) }
{
    match from_utf8(target) {
        Ok(target) => Ok(Content::Link {
            target: Text::new(alloc, target)?,
        }),
        Err(_) => Ok(Content::File {
            md5: digest_of(target),
        }),
    }
}

/// What a package records of an entry of its image.
fn owned_by(alloc: Global, entry: &Entry) -> Result<Owned, AllocError>
    ensures { is_good entry.now ≡ true → IfOk result (λ o. o ≡ owned_of entry.now) }
{
    let content = content_of(alloc, &entry.object)?;
    let path = entry.path.try_clone()?;
    Ok(Owned { path, content })
}

/// What a package records of its image, where its objects may be placed.
pub(crate) fn all_owned(alloc: Global, image: &[Entry]) -> Result<Vec<Owned>, AllocError>
    ensures { AreGood image.now → IfOk result (λ v. v.items ≡ map owned_of image.now) }
{
    let mut owned = Vec::with_capacity(alloc, image.len())?;
    for entry in image {
        owned.push(owned_by(alloc, entry)?)?;
    }
    Ok(owned)
}
