use dep_atom::PackageId;
use pms_names::Flags;
use visible_offers::Candidate;

/// Why a candidate may not come.
#[derive(Clone, Copy, Debug, PartialEq, Eq)]
pub enum Reason {
    /// It isn't visible.
    NotVisible(visible_verdicts::Reason),
    /// Its REQUIRED_USE refuses each setting of its flags that may be chosen.
    RequiredUse,
}

/// A candidate that may not come.
#[derive(Debug, Drop)]
pub struct Hidden {
    pub id: PackageId,
    pub reason: Reason,
}

/// What a run may choose from.
#[derive(Debug, Drop)]
pub struct Offers {
    /// The flags that are on for every package.
    pub implicit: Flags,
    /// By their names, the greater version of a name first, and of equal versions the one with the
    /// smaller text.
    pub candidates: Vec<Candidate>,
    /// Those that aren't visible, and behind them those that REQUIRED_USE refuses, each in the order
    /// of candidates.
    pub hidden: Vec<Hidden>,
}
