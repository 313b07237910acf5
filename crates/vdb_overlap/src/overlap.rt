use file_tree::Path;

/// Paths of a list that are in each other's way.
#[derive(Debug, Drop)]
pub enum Overlap {
    /// The path stands twice.
    Twice { path: Path },
    /// The path is above another.
    Nested { path: Path, below: Path },
}
