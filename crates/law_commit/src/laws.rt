ghost use Rattle.law_commit.specs.Claims.{GoodClaimsSuffice, MergesRecoverSoundly};
ghost use Rattle.law_commit.specs.Commits.{CommitsLeaveSoundTrees};
ghost use Rattle.law_commit.specs.Crashes.{CrashesRecoverSoundly, EachMomentRecoversSoundly};

/// A law: the committed groups of an accepted plan leave a kept tree whose packages are consistent,
/// wherever the run of groups stops.
pub fn commits_leave_sound_trees()
    ensures { CommitsLeaveSoundTrees }
{
    vdb_law::groups_keep_the_database();
    plan_law::accepted_plans_are_sound();
}

/// A law: while a machine merges the groups of an accepted plan, in any order of its events, a crash
/// recovers to a kept tree whose packages are consistent, with each settled group in it: a crash
/// between two events, and a crash at any moment within one.
pub fn crashes_recover_soundly()
    ensures between { CrashesRecoverSoundly }
    ensures moments { EachMomentRecoversSoundly }
{
    merge_core::images_stand();
    merge_core::events_keep();
    merge_core::runs_keep();
    merge_core::committed_is_run();
    merge_journal::open_groups_rise();
    commits_leave_sound_trees();
}

/// A law: where a claim is granted only to a group that may come then, over the settled groups and
/// beside those under way, all that a crash commits at any moment are steps one after another.
pub fn good_claims_suffice()
    ensures { GoodClaimsSuffice }
{
    vdb_law::groups_keep_the_database();
    pms_grammar::one_name_and_version();
    pms_grammar::one_spelling();
    merge_journal::open_groups_rise();
}

/// A law, the two above together: whatever a crash leaves while an accepted plan is merged with good
/// claims recovers to a sound tree.
pub fn merges_recover_soundly()
    ensures { MergesRecoverSoundly }
{
    crashes_recover_soundly();
    good_claims_suffice();
}
