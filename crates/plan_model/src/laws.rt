ghost use Rattle.plan_model.specs.Laws.{LinkedAdditionsCanBeKept};

/// A law: what comes with a plan that is linked to a text in form can be recorded.
pub fn linked_additions_can_be_kept()
    ensures { LinkedAdditionsCanBeKept }
{
    dep_tree::trees_in_form_are_atoms_in_groups();
}
