ghost use Rattle.std.specs.Prelude.{◌≡◌};
ghost use Rattle.merge_fit.specs.Images.{is_good};
ghost use Rattle.merge_fit.specs.Misfits.{bad_by};

use crate::fault::ImageBad;
use file_link::is_target;
use file_tree::{Entry, Kind, Path};
use merge_record::MOST_FILE_BYTES;

/// Whether an object may be placed: a file that isn't too large, or a link whose target is in form.
pub fn is_good(entry: &Entry) -> bool
    ensures { result ≡ is_good entry.now }
{
    let bytes = entry.object.bytes.as_slice();
    match entry.object.kind {
        Kind::Link => is_target(bytes),
        _ => bytes.len() as u64 <= MOST_FILE_BYTES,
    }
}

/// What an object of this kind is refused for, at its path.
pub fn bad_by(kind: Kind, path: Path) -> ImageBad
    ensures { result ≡ bad_by kind path }
{
    match kind {
        Kind::Link => ImageBad::Link { path },
        _ => ImageBad::Large { path },
    }
}
