ghost use Rattle.std.specs.Prelude.{◌≡◌, IfOk, OnOk, map};
ghost use Rattle.std.specs.Option.{option_map};
ghost use Rattle.choice_search.specs.Laws.{IsDeep};
ghost use Rattle.choice_search.specs.Path.{Path, down};
ghost use Rattle.choice_search.specs.Shape.{Shape};

use std::alloc::{AllocError, Global};

/// A tree of choices, in which one is at a choice and goes on from there by steps. A choice decides
/// lines, which are numbers. A call may change what a tree keeps for itself, but nothing of its
/// shape.
pub trait Tree<C, S> {
    /// What the tree is to a walk.
    ghost shape: { Self → Shape C };

    /// The way to the choice where one is.
    ghost path: { Self → Path C };

    /// The option to which a step leads from a choice.
    ghost option_by: { C → S → C };

    /// The steps to the options of the choice where one is, if something is open of it.
    fn options(&mut self, alloc: Global) -> Result<Option<Vec<S>>, AllocError>
        ensures same { shape self.new ≡ shape self.old }
        ensures stays { path self.new ≡ path self.old }
        ensures found { IfOk result (λ found.
            option_map (λ v. map (option_by (path self.old).here) v.items) found ≡
            (shape self.old).options (path self.old).here) };

    /// Goes on to an option.
    fn go(&mut self, alloc: Global, step: S) -> Result<(), AllocError>
        ensures same { shape self.new ≡ shape self.old }
        ensures there { OnOk result (path self.new ≡
            down (option_by (path self.old).here step) (path self.old)) };

    /// Goes back to the choice from which one came.
    fn back(&mut self, alloc: Global) -> Result<(), AllocError>
        ensures same { shape self.new ≡ shape self.old }
        ensures there { OnOk result ((c : C) (before : Path C) →
            path self.old ≡ down c before → path self.new ≡ before) };

    /// The lines on which it rests that something is open of the choice where one is.
    fn reason(&mut self, alloc: Global) -> Result<Vec<usize>, AllocError>
        ensures same { shape self.new ≡ shape self.old }
        ensures stays { path self.new ≡ path self.old }
        ensures lines { IfOk result (λ lines.
            lines.items ≡ (shape self.old).reason (path self.old).here) };

    /// Whether the choice where one is decides a line.
    fn knows(&self, line: usize) -> bool
        ensures { result ≡ (shape self.now).knows (path self.now).here line };

    /// A copy of the choice where one is.
    fn choice(&self, alloc: Global) -> Result<C, AllocError>
        ensures { IfOk result (λ choice. choice ≡ (path self.now).here) };

    /// An option has less below it than its choice.
    ghost smaller: { (tree : Self) → IsDeep (shape tree).options (shape tree).room };
}
