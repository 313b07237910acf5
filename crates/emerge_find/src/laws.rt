ghost use Rattle.emerge_find.specs.Laws.{FoundPlansAreFit};

/// A law: a plan that was found is accepted over the installed packages, and what comes with it can
/// be recorded.
pub fn found_plans_are_fit()
    ensures { FoundPlansAreFit }
{
    plan_model::linked_additions_can_be_kept();
}
