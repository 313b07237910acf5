ghost use Rattle.vdb_law.specs.Step.{GroupKeepsDatabase, GroupsKeepDatabase, SomeAfter};

/// A law: groups that are steps take a kept tree with a database to a kept tree with the database
/// after them.
pub fn groups_keep_the_database()
    ensures one { GroupKeepsDatabase }
    ensures all { GroupsKeepDatabase }
    ensures some { SomeAfter }
{
    pms_grammar::one_name_and_version();
    pms_grammar::one_spelling();
}
