ghost use Rattle.merge_groups.specs.Laws.{FinePlansArePartings};

use merge_graph::waits_fall;

/// A law: the groups of a fine plan are the components of the changes, and none waits for itself in
/// the end.
pub fn fine_plans_are_partings()
    ensures { FinePlansArePartings }
{
    waits_fall();
}
