ghost use Rattle.std.specs.Prelude.{◌≡◌};
ghost use Rattle.vdb_contents.specs.Contents.{is_dropped, meets};

use file_tree::{DATABASE, JOBS, is_below};

/// Whether the path is one that no package owns: in the database, in the journal, or above one of
/// them.
#[tactic(auto, unfolding(file_tree::specs::Fixed::database_path))]
pub(crate) fn is_dropped(path: &[u8]) -> bool
    ensures { result ≡ is_dropped path.now }
{
    meets(DATABASE.as_bytes(), path) || meets(JOBS.as_bytes(), path)
}

fn meets(top: &[u8], path: &[u8]) -> bool
    ensures { result ≡ meets top.now path.now }
{
    path == top || (is_below(top, path) || is_below(path, top))
}
