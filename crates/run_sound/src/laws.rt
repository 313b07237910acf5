ghost use Rattle.run_sound.specs.Ends.{RunsLeaveSoundTrees};
ghost use Rattle.run_sound.specs.Sound.{PlanRunsAreSound};

/// A law: whatever groups come into a sound tree that are those of a run of an accepted plan, in
/// whatever order that the plan allows and wherever that stops, leave a sound tree, with the packages
/// after just this run, where each makes the changes of its turn and its claim is granted.
pub fn runs_leave_sound_trees()
    ensures { RunsLeaveSoundTrees }
{
    vdb_files::records_are_read_back();
    pms_grammar::one_name_and_version();
    pms_grammar::one_spelling();
    plan_law::accepted_plans_are_sound();
    vdb_law::groups_keep_the_database();
    law_change::granted_exchanges_leave_owned_trees();
    run_files::owners_keep_their_keys();
}

/// A law: where a tree is sound and a plan is accepted over its packages, the merge of its groups
/// leaves a sound tree, wherever it stops, and whatever a crash leaves of it recovers to one, with the
/// packages after a run of the plan.
pub fn plan_runs_are_sound()
    ensures { PlanRunsAreSound }
{
    vdb_law::groups_keep_the_database();
    runs_leave_sound_trees();
}
