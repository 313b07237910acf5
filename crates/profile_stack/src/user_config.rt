ghost use Rattle.std.specs.Prelude.{◌≡◌};
ghost use Rattle.profile_lines.specs.Files.{content};
ghost use Rattle.profile_stack.specs.Files.{begun, configured};

use config_text::Assignment;
use profile_lines::{DefaultsFile, Item, Profile};
use std::alloc::Global;

/// What the profile and the user's files say.
#[derive(Debug, Drop)]
pub struct UserConfig {
    /// What the profile's files `make.defaults` set, in the order in which they are read.
    pub defaults: Vec<Assignment>,
    /// These files, in the same order.
    pub files: Vec<DefaultsFile>,
    /// What the user's `make.conf` sets.
    pub conf: Vec<Assignment>,
    /// The rules of the profile's `package.use` that the user doesn't take back.
    pub profile_uses: Vec<Item>,
    /// The rules of the user's `package.use`, line by line. They count behind `make.conf`.
    pub uses: Vec<Item>,
    /// The masks of packages, the user's behind the profile's, each once.
    pub masks: Vec<Item>,
    /// The packages of `package.unmask`, each once.
    pub unmasks: Vec<Item>,
    /// Which keywords are accepted: the lines of `package.accept_keywords`.
    pub keywords: Vec<Item>,
    /// Which flags are masked, as the profile says.
    pub hides: Vec<Item>,
    /// Which flags are forced, as the profile says.
    pub forces: Vec<Item>,
}

impl UserConfig {
    /// What the profile says, before the user's files count.
    pub(crate) fn begin(alloc: Global, profile: Profile) -> UserConfig
        ensures { configured result ≡ begun (content profile) }
    {
        let Profile {
            assigned,
            files,
            masks,
            uses,
            hides,
            forces,
        } = profile;
        UserConfig {
            defaults: assigned,
            files,
            conf: Vec::new(alloc),
            profile_uses: uses,
            uses: Vec::new(alloc),
            masks,
            unmasks: Vec::new(alloc),
            keywords: Vec::new(alloc),
            hides,
            forces,
        }
    }
}
