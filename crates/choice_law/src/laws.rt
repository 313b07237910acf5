ghost use Rattle.choice_law.specs.Laws.{GoodLeavesAreSolutions, SolutionsHaveLeaves};
ghost use Rattle.choice_law.specs.Reasons.{HopelessChoicesFail, ReasonsSuffice};

/// A law: a choice of the tree that leaves nothing open is a solution.
pub fn good_leaves_are_solutions()
    ensures { GoodLeavesAreSolutions }
{}

/// A law: for each solution the tree has a good leaf.
pub fn solutions_have_leaves()
    ensures { SolutionsHaveLeaves }
{}

/// A law: a solution that agrees with a choice on the reason of what is open agrees with what some
/// option for that adds.
pub fn reasons_suffice()
    ensures { ReasonsSuffice }
{}

/// A law: no solution agrees with a hopeless choice on the reason of what is open.
pub fn hopeless_choices_fail()
    ensures { HopelessChoicesFail }
{}
