use crate::collision::Collision;
use choice_ends::DeadEnd;
use choice_tree::Choice;
use dep_atom::{Atom, PackageId};
use emerge_choose::NotTaken;
use emerge_words::WordFault;
use file_tree::{Path, Quantity};
use merge_fit::ImageBad;
use pkg_state::Broken;
use plan_rules::PlanRefused;
use recovery::RecoverFault;
use vdb_text::DatabaseFault;

/// A part of the product that is not there yet for what the run met.
#[derive(Clone, Copy, Debug, PartialEq, Eq)]
pub enum Part {
    /// A command that is more than a merge of what its atoms match.
    Command,
    /// What is chosen isn't offered, or its plan isn't accepted.
    Result,
}

/// How a run ended.
#[derive(Debug, Drop)]
pub enum Status {
    /// The command was done, with this many groups acknowledged.
    Ok {
        groups: u32,
    },
    /// The words are no command, or a word in them is no number or no atom.
    Usage {
        fault: WordFault,
    },
    /// The file of the configuration, or that of the plan, isn't in form at this line, counted from
    /// 1. Line 0 has a folder or a plan's file that is missing, and a plan with a flag that its
    /// package doesn't know.
    BadText {
        path: Path,
        line: u32,
    },
    /// The first fault of the database of installed packages.
    BadDatabase(DatabaseFault),
    /// The first open group of the journal that isn't in form, by its record or a stage of it.
    BadJournal(RecoverFault),
    /// What is first wrong with the installed packages, in line order.
    Inconsistent(Broken),
    /// The first wanted atom that matches neither what is installed nor what may be installed, or
    /// that of the first addition of a plan's file that isn't offered: the candidates of its name,
    /// the greatest version first, each with why it isn't taken.
    NoCandidate {
        atom: Atom,
        reasons: Vec<NotTaken>,
    },
    /// No choice of packages serves the wanted atoms: the first that were tried in vain.
    NoSolution {
        dead: Vec<DeadEnd>,
    },
    /// So many choices were tried in vain: these, in their order, and the first of them told by
    /// packages.
    BacktrackLimit {
        refuted: Vec<Choice>,
        dead: Vec<DeadEnd>,
    },
    /// The first rule of the check that the plan of a file breaks.
    PlanRefused(PlanRefused),
    /// Of these packages of what is chosen each waits for all others, and one is built with another.
    BuildCycle {
        packages: Vec<PackageId>,
    },
    /// What is chosen comes in no order of groups: the first rule that its plan by levels breaks.
    NoOrder(PlanRefused),
    /// A path of the package's image can't be placed.
    Collision(Collision),
    /// The package's image isn't in form.
    BadImage(ImageBad),
    /// A builder failed at this package.
    BuildFailed {
        package: PackageId,
    },
    /// The tree's device failed.
    DeviceFault,
    /// The output failed.
    OutputFault,
    /// There is more of the quantity than may be.
    Limit {
        quantity: Quantity,
    },
    /// Memory ran out.
    Memory,
    /// The run met what this part of the product can't do yet.
    NotBuilt {
        what: Part,
    },
}

impl Status {
    ghost use Rattle.std.specs.Prelude.{◌≡◌};
    ghost use Rattle.merge_report.specs.Texts.{code_of};

    /// The number that a program ends with.
    pub fn code(&self) -> u8
        ensures { result ≡ code_of self.now }
    {
        match self {
            Status::Ok { .. } => 0,
            Status::Usage { .. } => 2,
            Status::BadText { .. } => 3,
            Status::BadDatabase(_) => 4,
            Status::BadJournal(_) => 5,
            Status::Inconsistent(_) => 6,
            Status::NoCandidate { .. } => 7,
            Status::NoSolution { .. } => 8,
            Status::BacktrackLimit { .. } => 9,
            Status::PlanRefused(_) => 10,
            Status::BuildCycle { .. } => 11,
            Status::NoOrder(_) => 12,
            Status::Collision(_) => 13,
            Status::BadImage(_) => 14,
            Status::BuildFailed { .. } => 15,
            Status::DeviceFault => 16,
            Status::OutputFault => 17,
            Status::Limit { .. } => 18,
            Status::Memory => 19,
            Status::NotBuilt { .. } => 20,
        }
    }
}
