ghost use Rattle.choice_search.specs.Jumping.{LosesNothing};
ghost use Rattle.choice_search.specs.Laws.{DepthIsOfNoAccount};

use crate::deciding::Deciding;

/// A law: whoever looks deep enough below a choice sees all of its leaves.
pub fn depth_is_of_no_account<C>()
    ensures { DepthIsOfNoAccount C }
{}

/// A law: a walk that jumps back ends at the first good leaf of all; what it meets are dead leaves
/// before that, and where a choice is barren, no solution agrees with it on the cause.
pub fn jumps_lose_nothing<C, S, T: Deciding<C, S>>(_tree: &T)
    ensures { (c : C) → T.fits _tree.now c →
        LosesNothing (T.shape _tree.now) (T.decided _tree.now) (T.is_solution _tree.now) c }
{}
