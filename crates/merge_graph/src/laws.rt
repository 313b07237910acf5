ghost use Rattle.merge_graph.specs.Laws.{LevelsAreOne, NumbersAreOne, WaitsFall};

/// A law: the rule of numbers leaves one answer.
pub fn numbers_are_one()
    ensures { NumbersAreOne }
{}

/// A law: what a component waits for has a smaller number.
pub fn waits_fall()
    ensures { WaitsFall }
{}

/// A law: the rule of levels leaves one answer.
pub fn levels_are_one()
    ensures { LevelsAreOne }
{}
