use file_tree::Entry;

/// An entry of the image of a package.
#[derive(Drop)]
pub struct Packed {
    /// The package that it is of, as `category/package-version`.
    pub of: String,
    pub entry: Entry,
}
