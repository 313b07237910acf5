ghost use Rattle.law_claim.specs.Granted.{GrantedClaimsAreGood};
ghost use Rattle.law_claim.specs.Settled.{SettledOwnersAre};
ghost use Rattle.law_claim.specs.Tidy.{BooksStayTidy};
ghost use Rattle.law_claim.specs.Turns.{GrantedLinesAreApart};

/// A law: a claim that the book takes is a good one, over the packages that its owners are, and
/// beside the claims that it has.
pub fn granted_claims_are_good()
    ensures { GrantedClaimsAreGood }
{}

/// A law: no line of an accepted plan is changed by two groups whose claims are granted at a time.
pub fn granted_lines_are_apart()
    ensures { GrantedLinesAreApart }
{}

/// A law: once a group's claim is settled, the book's owners are the packages of the tree with the
/// group.
pub fn settled_owners_are()
    ensures { SettledOwnersAre }
{
    pms_grammar::one_name_and_version();
    pms_grammar::one_spelling();
}

/// A law: while claims are taken, settled and released, no path is in two of them, an owner of a
/// claimed path goes with the group that claims it, and no path that is owned or to be placed is
/// above or below another one.
pub fn books_stay_tidy()
    ensures { BooksStayTidy }
{}
