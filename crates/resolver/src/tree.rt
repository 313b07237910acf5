use choice_search::{Deciding, Tree};
use choice_tree::{Choice, Step};
use choice_walk::Walk;
use std::alloc::{AllocError, Global};

/// The choices of a universe, each with its options for what is first open of it. A hopeless choice
/// has none here.
#[derive(Drop)]
pub(crate) struct Choices<'a> {
    pub(crate) walk: Walk<'a>,
}

impl<'a> Tree<Choice, Step> for Choices<'a> {
    ghost use Rattle.choice_tree.specs.Steps.{after};
    ghost use Rattle.choice_tree.specs.Views.{universe_of};
    ghost use Rattle.choice_tree.proofs.Smaller.{tried_smaller};
    ghost use Rattle.choice_walk.specs.Way.{above, here};
    ghost use Rattle.resolver.specs.Tree.{tree_shape};

    ghost shape = { λ t. tree_shape t.walk.universe.now.update (universe_of t.walk.universe.now) };

    ghost path = { λ t. record {
      here = here t.walk.trail.items;
      above = above t.walk.trail.items;
    } };

    ghost option_by = { after };

    fn options(&mut self, alloc: Global) -> Result<Option<Vec<Step>>, AllocError> {
        self.walk.next_steps(alloc)
    }

    fn go(&mut self, alloc: Global, step: Step) -> Result<(), AllocError> {
        self.walk.go(alloc, step)
    }

    fn back(&mut self, alloc: Global) -> Result<(), AllocError> {
        self.walk.back(alloc)
    }

    fn reason(&mut self, alloc: Global) -> Result<Vec<usize>, AllocError> {
        self.walk.reason(alloc)
    }

    fn knows(&self, line: usize) -> bool {
        self.walk.decided(line).is_some()
    }

    fn choice(&self, alloc: Global) -> Result<Choice, AllocError> {
        self.walk.choice(alloc)
    }

    ghost smaller = { λ t.
        tried_smaller t.walk.universe.now.update (universe_of t.walk.universe.now) };
}

impl<'a> Deciding<Choice, Step> for Choices<'a> {
    ghost use Rattle.choice_law.specs.Solutions.{IsSolution};
    ghost use Rattle.choice_law.specs.Tree.{decided};
    ghost use Rattle.choice_law.specs.Universe.{Value as LineValue};
    ghost use Rattle.choice_tree.specs.Views.{universe_of};
    ghost use Rattle.resolver.specs.Nodes.{IsOfTree};
    ghost use Rattle.resolver.specs.Jumping.{choices_jump};

    ghost Value = { LineValue };

    ghost decided = { λ t. decided };

    ghost fits = { λ t. IsOfTree (universe_of t.walk.universe.now) };

    ghost is_solution = { λ t. IsSolution (universe_of t.walk.universe.now) };

    ghost jumps = { λ t. choices_jump t.walk.universe.now.update
        (universe_of t.walk.universe.now) };
}
