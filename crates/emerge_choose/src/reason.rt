use dep_atom::PackageId;

/// Why a candidate can't be chosen.
#[derive(Clone, Copy, Debug, PartialEq, Eq)]
pub enum Reason {
    /// It has no ebuild.
    NoEbuild,
    /// It is of another edition.
    Eapi,
    /// What is known of it was made of another ebuild.
    Stale,
    /// What is known of it has a fault.
    BadEntry,
    /// None of its keywords is accepted.
    Keyword,
    /// It is masked.
    Masked,
    /// No setting of its flags goes together.
    RequiredUse,
    /// The atom doesn't match it.
    NotMatched,
}

/// A candidate that isn't taken, and why.
#[derive(Debug, Drop)]
pub struct NotTaken {
    pub id: PackageId,
    pub reason: Reason,
}
