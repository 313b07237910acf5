ghost use Rattle.std.specs.Prelude.{◌≡◌};
ghost use Rattle.profile_lines.specs.Files.{content, empty};

use crate::item::Item;
use config_text::Assignment;
use file_tree::Path;
use std::alloc::Global;

/// A file `make.defaults` of a profile, which has so many assignments.
#[derive(Debug, Drop)]
pub struct DefaultsFile {
    pub path: Path,
    pub count: usize,
}

/// What a profile says.
#[derive(Debug, Drop)]
pub struct Profile {
    /// What the files `make.defaults` set, in the order in which they are read.
    pub assigned: Vec<Assignment>,
    /// These files, in the same order.
    pub files: Vec<DefaultsFile>,
    /// The masks of packages, each once.
    pub masks: Vec<Item>,
    /// The rules of `package.use`, line by line.
    pub uses: Vec<Item>,
    /// Which flags are masked: the lines of `use.mask` and `package.use.mask`.
    pub hides: Vec<Item>,
    /// Which flags are forced: the lines of `use.force` and `package.use.force`.
    pub forces: Vec<Item>,
}

impl Profile {
    /// A profile that says nothing.
    pub(crate) fn new(alloc: Global) -> Profile
        ensures { content result ≡ empty }
    {
        Profile {
            assigned: Vec::new(alloc),
            files: Vec::new(alloc),
            masks: Vec::new(alloc),
            uses: Vec::new(alloc),
            hides: Vec::new(alloc),
            forces: Vec::new(alloc),
        }
    }
}
