ghost use Rattle.law_change.specs.Changes.{GrantedExchangesAreTold};
ghost use Rattle.law_change.specs.Changes.{GrantedExchangesLeaveOwnedTrees};

/// A law: a group that was granted, and that brings packages and takes others away, does what its
/// change says; it leaves a kept tree with the packages after it, which are the owners once its
/// claim is settled.
pub fn granted_exchanges_leave_owned_trees()
    ensures told { GrantedExchangesAreTold }
    ensures leave { GrantedExchangesLeaveOwnedTrees }
{
    law_claim::granted_claims_are_good();
    law_claim::settled_owners_are();
    vdb_law::groups_keep_the_database();
    pms_grammar::one_name_and_version();
    pms_grammar::one_spelling();
}
