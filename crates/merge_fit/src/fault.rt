use file_tree::Path;
use thiserror::Error;

/// What is wrong with an image.
#[derive(Debug, Drop, Error)]
pub enum ImageBad {
    #[error("a path is reserved")]
    Reserved { path: Path },
    #[error("a path stands twice")]
    Twice { path: Path },
    #[error("a file is too large")]
    Large { path: Path },
    #[error("a link has a bad target")]
    Link { path: Path },
}
