ghost use Rattle.choice_tree.specs.Open.{FirstOpenIsAPick};
ghost use Rattle.choice_tree.specs.Options.{OptionsAreThose};
ghost use Rattle.choice_tree.specs.Tree.{OptionsDecideMore};

/// A law: the first obligation that is open is a pick, so the laws of the tree of choices hold of
/// it.
pub fn first_open_is_a_pick()
    ensures { FirstOpenIsAPick }
{}

/// A law: the options that are listed are just those of the laws of choices.
pub fn options_are_those()
    ensures { OptionsAreThose }
{}

/// A law: each option decides a line more.
pub fn options_decide_more()
    ensures { OptionsDecideMore }
{}
