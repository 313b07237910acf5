use basics::Text;
use file_tree::Path;

/// What a package recorded of one of its paths.
#[derive(Debug, Drop)]
pub enum Content {
    /// A file, by the MD5 of its bytes.
    File { md5: [u8; 16] },
    /// A link, by the text that it leads to.
    Link { target: Text },
}

/// A path that a package owns.
#[derive(Debug, Drop)]
pub struct Owned {
    pub path: Path,
    pub content: Content,
}
