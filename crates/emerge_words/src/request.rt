ghost use Rattle.std.specs.Prelude.{◌≡◌};
ghost use Rattle.emerge_words.specs.Faults.{word_fault};
ghost use Rattle.emerge_words.specs.declared.request.WordFault.TheVariants.{Memory};

use crate::line::LineFault;
use dep_atom::Atom;
use file_tree::Path;
use std::alloc::{AllocError, AllocFailed};

/// What a run shall do.
#[derive(Debug, Drop)]
pub enum Command {
    /// Installs what the atoms match, and what that needs.
    Merge {
        atoms: Vec<Atom>,
        /// `@world` is named: the atoms of the world file count too.
        world: bool,
        update: bool,
        repair: bool,
        /// How many choices the search may take back.
        backtrack: u32,
        /// How many flags may be changed.
        flips: u32,
    },
    /// Does the plan that stands in a file.
    PlanFile {
        path: Path,
    },
    /// Removes what the atoms match.
    Unmerge {
        atoms: Vec<Atom>,
    },
    /// Merges a generated repository of so many packages.
    Load {
        n: u32,
    },
}

/// A command, and how it shall run.
#[derive(Debug, Drop)]
pub struct Request {
    pub command: Command,
    /// Shows the plan, and changes nothing.
    pub pretend: bool,
    /// How many groups may be under way at a time.
    pub jobs: u32,
    /// Goes on after a group that fails.
    pub keep_going: bool,
    /// The folder of the host that is the root.
    pub tree: String,
    /// The folder of the host that has the images.
    pub images: String,
    /// The program of the host that builds images, where they aren't taken from a folder.
    pub build_with: Option<String>,
}

/// Why words ask for nothing.
#[derive(Debug, Drop)]
pub enum WordFault {
    /// No command has these words.
    Usage,
    /// A word that is no atom without a block.
    BadAtom { word: String },
    /// The text of an option that is no number in its range.
    BadNumber { word: String },
    /// Memory ran out.
    Memory,
}

impl From<AllocError> for WordFault {
    ghost from_gives = { λ _ fault. fault ≡ Memory };

    fn from(_: AllocError) -> WordFault {
        WordFault::Memory
    }
}

impl<T: Drop> From<AllocFailed<T>> for WordFault {
    ghost from_gives = { λ _ fault. fault ≡ Memory };

    fn from(_: AllocFailed<T>) -> WordFault {
        WordFault::Memory
    }
}

impl From<LineFault> for WordFault {
    ghost from_gives = { λ fault refusal. refusal ≡ word_fault fault };

    fn from(fault: LineFault) -> WordFault {
        match fault {
            LineFault::NotCut => WordFault::Usage,
            LineFault::Memory => WordFault::Memory,
        }
    }
}
