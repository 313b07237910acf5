use crate::unfiled::Unfiled;
use crate::unmerge::NotUnmerged;
use emerge_choose::NotChosen;
use file_tree::Path;

/// Why no plan is made of a source.
#[derive(Drop)]
pub(crate) enum Unmade {
    /// Of what is wanted nothing is chosen.
    Wished(NotChosen),
    /// The plan that stands in the file at the path may not be merged.
    Filed { path: Path, fault: Unfiled },
    /// Nothing is to go.
    Unmerged(NotUnmerged),
}
