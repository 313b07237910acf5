use file_tree::{Object, Path};
use std::collections::BTreeSet;

/// What undoes one change of the disk.
#[derive(Drop)]
pub enum Change {
    /// The path held `old`, and was touched or not.
    Wrote {
        path: Path,
        old: Option<Object>,
        was: bool,
    },
    /// The path was touched or not; it still holds what it held.
    Touched {
        path: Path,
        was: bool,
    },
    /// These paths were touched.
    Synced {
        touched: BTreeSet<Path>,
    },
}
