ghost use Rattle.std.specs.Prelude.{[], IfErr, IfOk};
ghost use Rattle.choice_law.specs.Solutions.{IsSolution};
ghost use Rattle.choice_law.specs.Tree.{decided};
ghost use Rattle.choice_tree.specs.Views.{universe_of};
ghost use Rattle.resolver.specs.Answers.{HasCause, IsChosen};
ghost use Rattle.resolver.specs.Tree.{tree_shape};
ghost use Rattle.choice_search.specs.Jumping.{LosesNothing};
ghost use Rattle.choice_search.specs.Visit.{IsOutcome, visit};

use crate::fault::ResolveFault;
use crate::form::universe_is_plain;
use crate::tree::Choices;
use choice_law::{good_leaves_are_solutions, hopeless_choices_fail, solutions_have_leaves};
use choice_search::{Outcome, first_good, jumps_lose_nothing};
use choice_tree::{Choice, Universe, first_open_is_a_pick};
use choice_walk::Walk;
use std::alloc::{AllocError, Global};

// What the jumps leave out is of no account.
fn no_jump_loses(choices: &Choices<'_>)
    ensures { LosesNothing (tree_shape choices.now.walk.universe.now.update
        (universe_of choices.now.walk.universe.now)) decided
        (IsSolution (universe_of choices.now.walk.universe.now)) [] }
{
    universe_is_plain(choices.walk.universe);
    jumps_lose_nothing(choices);
}

fn search(
    alloc: Global,
    universe: &Universe,
    backtrack: usize,
) -> Result<Outcome<Choice>, AllocError>
    ensures outcome { IfOk result (IsOutcome
        (visit (tree_shape universe.now.update (universe_of universe.now)) []) backtrack) }
    ensures lossless { IfOk result (λ _. LosesNothing
        (tree_shape universe.now.update (universe_of universe.now)) decided
        (IsSolution (universe_of universe.now)) []) }
{
    let walk = Walk::new(alloc, universe)?;
    let mut choices = Choices { walk };
    no_jump_loses(&choices);
    let outcome = first_good(alloc, &mut choices, backtrack)?;
    Ok(outcome)
}

/// The first choice of the tree of which nothing is open. It gives up where so many were tried in
/// vain before one.
pub fn resolve(alloc: Global, universe: &Universe, backtrack: usize) -> Result<Choice, ResolveFault>
    ensures chosen { IfOk result
        (IsChosen universe.now.update (universe_of universe.now) backtrack) }
    ensures cause { IfErr result
        (HasCause universe.now.update (universe_of universe.now) backtrack) }
{
    good_leaves_are_solutions();
    solutions_have_leaves();
    hopeless_choices_fail();
    first_open_is_a_pick();
    universe_is_plain(universe);
    match search(alloc, universe, backtrack)? {
        Outcome::Found(choice) => Ok(choice),
        Outcome::NoneGood(refuted) => Err(ResolveFault::NoSolution { refuted }),
        Outcome::Limit(refuted) => Err(ResolveFault::BacktrackLimit { refuted }),
    }
}
