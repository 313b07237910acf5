ghost use Rattle.std.specs.Prelude.{◌≡◌, MatchOption};
ghost use Rattle.emerge_find.specs.Choices.{flips_of};
ghost use Rattle.emerge_find.specs.Requests.{IsAsked, IsOfMerge};
ghost use Rattle.emerge_find.specs.declared.asked.Asked.{Asked as AskedValue};

use dep_atom::Atom;
use emerge_words::{Command, Request};
use file_tree::Path;

/// Where the plan of a run comes from.
#[derive(Debug, Drop)]
pub enum Aim {
    /// It is found for atoms.
    Atoms {
        /// Each of these is to match a package.
        wanted: Vec<Atom>,
        /// So is each of the world file.
        world: bool,
        /// A greater version goes before what is installed.
        update: bool,
        /// So many choices that were tried in vain are too many.
        limit: usize,
        /// At most so many flags of a candidate are flipped.
        flips: u32,
    },
    /// It stands in this file of the tree.
    File {
        path: Path,
    },
    /// It takes away what is installed and matched by one of these.
    Unmerge {
        atoms: Vec<Atom>,
    },
}

/// What a command asks of a run that merges.
#[derive(Debug, Drop)]
pub struct Asked {
    pub aim: Aim,
    /// The plan is shown, and nothing is merged.
    pub pretend: bool,
}

/// What the request asks, if it merges what its atoms match, without a repair, or does the plan of
/// a file, or unmerges what its atoms match.
pub fn asked_of(request: Request) -> Option<Asked>
    ensures { MatchOption result ((a : AskedValue) → ¬ IsAsked request a) (IsAsked request) }
{
    let pretend = request.pretend;
    asked_by(request.command, pretend)
}

fn asked_by(command: Command, pretend: bool) -> Option<Asked>
    ensures { MatchOption result ((a : AskedValue) → ¬ IsOfMerge command pretend a)
        (IsOfMerge command pretend) }
{
    match command {
        Command::Merge {
            atoms: wanted,
            world,
            update,
            repair,
            backtrack,
            flips,
        } => {
            if repair {
                return None;
            }
            let aim = Aim::Atoms {
                wanted,
                world,
                update,
                limit: backtrack as usize,
                flips,
            };
            Some(Asked { aim, pretend })
        }
        Command::PlanFile { path } => Some(Asked {
            aim: Aim::File { path },
            pretend,
        }),
        Command::Unmerge { atoms } => Some(Asked {
            aim: Aim::Unmerge { atoms },
            pretend,
        }),
        Command::Load { .. } => None,
    }
}

/// So many flags of a candidate are flipped at most; where no atoms are to be served none is.
pub(crate) fn flips_of(aim: &Aim) -> u32
    ensures { result ≡ flips_of aim.now }
{
    match aim {
        Aim::Atoms { flips, .. } => *flips,
        Aim::File { .. } | Aim::Unmerge { .. } => 0,
    }
}
