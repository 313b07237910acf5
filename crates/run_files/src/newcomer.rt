use file_tree::Entry;
use pkg_state::Pkg;

/// A package that comes with a group.
#[derive(Drop)]
pub struct Newcomer {
    /// What it is, with its slot operators bound.
    pub pkg: Pkg,
    /// The entries of its image.
    pub image: Vec<Entry>,
}
