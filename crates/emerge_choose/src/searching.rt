ghost use Rattle.std.specs.Prelude.{◌≡◌, IfErr, IfOk, List, None, ℕ};
ghost use Rattle.choice_tree.specs.Views.{universe_of};
ghost use Rattle.pkg_state.specs.Package.{Package};
ghost use Rattle.resolver.specs.Answers.{HasCause, IsChosen};
ghost use Rattle.emerge_choose.specs.Answers.{Tells};
ghost use Rattle.emerge_choose.specs.Wishes.{first_unserved};
ghost use Rattle.emerge_choose.specs.declared.reason.NotTaken.{NotTaken};

use crate::fault::NotChosen;
use choice_ends::dead_ends;
use choice_tree::{Choice, Universe};
use resolver::{ResolveFault, resolve};
use std::alloc::{AllocError, Global};

/// Why there is no choice, with the first dead ends of the search.
fn of_resolve(
    alloc: Global,
    universe: &Universe,
    fault: ResolveFault,
) -> Result<NotChosen, AllocError>
    requires served { first_unserved (universe_of universe.now) ≡ None }
    requires cause { (limit : ℕ) × HasCause universe.now.update (universe_of universe.now)
        limit fault }
    ensures { IfOk result (λ e. (installed offered : List Package) (hidden : List NotTaken)
        (limit : ℕ) → HasCause universe.now.update (universe_of universe.now) limit fault →
        Tells installed offered hidden universe.now.update limit (universe_of universe.now) e) }
{
    match fault {
        ResolveFault::NoSolution { refuted } => {
            let dead = dead_ends(alloc, universe, &refuted)?;
            Ok(NotChosen::NoSolution { dead })
        }
        ResolveFault::BacktrackLimit { refuted } => {
            let dead = dead_ends(alloc, universe, &refuted)?;
            Ok(NotChosen::BacktrackLimit { refuted, dead })
        }
        ResolveFault::Memory => Ok(NotChosen::Memory),
    }
}

/// The first good choice.
pub(crate) fn resolved(
    alloc: Global,
    universe: &Universe,
    limit: usize,
) -> Result<Choice, NotChosen>
    requires { first_unserved (universe_of universe.now) ≡ None }
    ensures chosen { IfOk result
        (IsChosen universe.now.update (universe_of universe.now) limit) }
    ensures fault { IfErr result (λ e. (installed offered : List Package)
        (hidden : List NotTaken) →
        Tells installed offered hidden universe.now.update limit (universe_of universe.now) e) }
{
    match resolve(alloc, universe, limit) {
        Ok(choice) => Ok(choice),
        Err(fault) => Err(of_resolve(alloc, universe, fault)?),
    }
}
