use dep_atom::PackageId;
use file_tree::Path;

/// Why a path of an image can't be placed.
#[derive(Debug, Drop)]
pub enum Collision {
    /// This package, which was installed or came with a group before, owns the path.
    Owned { path: Path, owner: PackageId },
    /// This group of the plan has claimed the path.
    Claimed { path: Path, group: u32 },
    /// The path is above or below another.
    Ancestor { path: Path, other: Path },
    /// Something that no package owns is in the way.
    Unowned { path: Path },
}
