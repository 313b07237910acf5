ghost use Rattle.std.specs.Prelude.{◌≡◌};
ghost use Rattle.emerge_find.specs.Ends.{end_of, end_of_file, end_of_unmerge, end_with};

use crate::unfiled::Unfiled;
use crate::unmade::Unmade;
use crate::unmerge::NotUnmerged;
use choice_ends::DeadEnd;
use choice_tree::Choice;
use dep_atom::{Atom, PackageId};
use emerge_choose::{NotChosen, NotTaken};
use file_tree::{Path, TreeFault};
use plan_rules::PlanRefused;
use run_opening::OpeningFault;
use std::alloc::AllocError;
use thiserror::Error;
use vdb_record::Installed;
use visible_set::OffersFault;

/// Why there is no plan. Where the database could be read, the installed packages are given back.
#[derive(Debug, Drop, Error)]
pub enum NoPlan {
    /// The tree has no offers.
    #[error(transparent)]
    Offers(OffersFault),
    /// No run can begin with what is installed.
    #[error(transparent)]
    Opening(OpeningFault),
    /// The plan's file isn't in form at this line, counted from 1. Line 0 has a file that is missing,
    /// and a plan with a flag that its package doesn't know.
    #[error("line {line} of a plan's file is not in form")]
    Text {
        path: Path,
        line: u32,
    },
    /// The plan's file has too many groups, or what is chosen would have more than 4,096.
    #[error("there are too many groups")]
    Limit,
    /// The first wanted atom that matches nothing, or that of the first addition of the plan's file
    /// that isn't offered, and the candidates of its name; or the first atom that matches nothing
    /// that is installed, and no candidates.
    #[error("an atom matches nothing that may be installed")]
    NoCandidate {
        atom: Atom,
        reasons: Vec<NotTaken>,
        packages: Vec<Installed>,
    },
    /// The first ten of the choices that were tried in vain.
    #[error("there is no solution")]
    NoSolution {
        dead: Vec<DeadEnd>,
        packages: Vec<Installed>,
    },
    /// So many choices were tried in vain: these, in their order, and the first ten as dead ends.
    #[error("the limit of choices that are tried in vain is reached")]
    BacktrackLimit {
        refuted: Vec<Choice>,
        dead: Vec<DeadEnd>,
        packages: Vec<Installed>,
    },
    /// These packages of what is chosen wait for one another, and some of them build on others of
    /// them.
    #[error("packages build on one another")]
    BuildCycle {
        cycle: Vec<PackageId>,
        packages: Vec<Installed>,
    },
    /// Neither plan of what is chosen is accepted: what is wrong with that of levels.
    #[error("what is chosen has no order")]
    NoOrder {
        fault: PlanRefused,
        packages: Vec<Installed>,
    },
    /// What is chosen isn't offered.
    #[error("what is chosen is not offered")]
    NotPlanned {
        packages: Vec<Installed>,
    },
    /// The plan of the file, or of what is to go, breaks a rule of the check.
    #[error("the plan is not accepted")]
    Refused {
        fault: PlanRefused,
        packages: Vec<Installed>,
    },
    #[error(transparent)]
    Tree(TreeFault),
}

impl From<OffersFault> for NoPlan {
    ghost use Rattle.std.specs.Prelude.{◌≡◌};
    ghost use Rattle.emerge_find.specs.declared.ends.NoPlan.TheVariants as ends;

    ghost from_gives = { λ f e. e ≡ ends.Offers f };

    fn from(fault: OffersFault) -> NoPlan {
        NoPlan::Offers(fault)
    }
}

impl From<OpeningFault> for NoPlan {
    ghost use Rattle.std.specs.Prelude.{◌≡◌};
    ghost use Rattle.emerge_find.specs.declared.ends.NoPlan.TheVariants as ends;

    ghost from_gives = { λ f e. e ≡ ends.Opening f };

    fn from(fault: OpeningFault) -> NoPlan {
        NoPlan::Opening(fault)
    }
}

impl From<TreeFault> for NoPlan {
    ghost use Rattle.std.specs.Prelude.{◌≡◌};
    ghost use Rattle.emerge_find.specs.declared.ends.NoPlan.TheVariants as ends;

    ghost from_gives = { λ f e. e ≡ ends.Tree f };

    fn from(fault: TreeFault) -> NoPlan {
        NoPlan::Tree(fault)
    }
}

impl From<AllocError> for NoPlan {
    ghost use Rattle.std.specs.Prelude.{◌≡◌};
    ghost use Rattle.file_tree.specs.declared.fault.TreeFault.TheVariants as trees;
    ghost use Rattle.emerge_find.specs.declared.ends.NoPlan.TheVariants as ends;

    ghost from_gives = { λ _ e. e ≡ ends.Tree trees.Memory };

    fn from(_: AllocError) -> NoPlan {
        NoPlan::Tree(TreeFault::Memory)
    }
}

/// The end of a run that makes no plan over these packages.
pub(crate) fn end_of(fault: Unmade, packages: Vec<Installed>) -> NoPlan
    ensures { result ≡ end_of fault packages }
{
    match fault {
        Unmade::Wished(fault) => end_with(fault, packages),
        Unmade::Filed { path, fault } => end_of_file(fault, path, packages),
        Unmade::Unmerged(fault) => end_of_unmerge(fault, packages),
    }
}

/// The same where nothing is chosen.
fn end_with(fault: NotChosen, packages: Vec<Installed>) -> NoPlan
    ensures { result ≡ end_with fault packages }
{
    match fault {
        NotChosen::NoCandidate { atom, reasons } => NoPlan::NoCandidate {
            atom,
            reasons,
            packages,
        },
        NotChosen::NoSolution { dead } => NoPlan::NoSolution { dead, packages },
        NotChosen::BacktrackLimit { refuted, dead } => NoPlan::BacktrackLimit {
            refuted,
            dead,
            packages,
        },
        NotChosen::BuildCycle { packages: cycle } => NoPlan::BuildCycle { cycle, packages },
        NotChosen::Limit => NoPlan::Limit,
        NotChosen::Unlinked(_) => NoPlan::NotPlanned { packages },
        NotChosen::NoOrder(fault) => NoPlan::NoOrder { fault, packages },
        NotChosen::Memory => NoPlan::Tree(TreeFault::Memory),
    }
}

/// The same for the plan that stands in a file.
fn end_of_file(fault: Unfiled, path: Path, packages: Vec<Installed>) -> NoPlan
    ensures { result ≡ end_of_file fault path packages }
{
    match fault {
        Unfiled::NoCandidate { atom, reasons } => NoPlan::NoCandidate {
            atom,
            reasons,
            packages,
        },
        Unfiled::BadFlag => NoPlan::Text { path, line: 0 },
        Unfiled::Refused(fault) => NoPlan::Refused { fault, packages },
        Unfiled::Memory => NoPlan::Tree(TreeFault::Memory),
    }
}

/// The same where nothing goes.
fn end_of_unmerge(fault: NotUnmerged, packages: Vec<Installed>) -> NoPlan
    ensures { result ≡ end_of_unmerge fault packages }
{
    match fault {
        NotUnmerged::NoCandidate { atom, reasons } => NoPlan::NoCandidate {
            atom,
            reasons,
            packages,
        },
        NotUnmerged::Refused(fault) => NoPlan::Refused { fault, packages },
        NotUnmerged::Memory => NoPlan::Tree(TreeFault::Memory),
    }
}
