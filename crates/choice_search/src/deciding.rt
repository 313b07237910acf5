ghost use Rattle.std.specs.Prelude.{ℕ, Option};
ghost use Rattle.choice_search.specs.Jumping.{IsJumping};

use crate::tree::Tree;

/// A tree of choices that decide values of lines. Solutions have a value of each line.
pub trait Deciding<C, S>: Tree<C, S> {
    ghost Value: { Type 0 };

    /// What a choice decides of a line.
    ghost decided: { Self → C → ℕ → Option Value };

    /// Which choices are of this tree.
    ghost fits: { Self → C → Type 0 };

    ghost is_solution: { Self → (ℕ → Value) → Type 0 };

    /// The reasons of the tree are reasons for its solutions.
    ghost jumps: { (tree : Self) →
        IsJumping (Self.shape tree) (decided tree) (fits tree) (is_solution tree) };
}
