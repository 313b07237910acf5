use dep_atom::{Atom, PackageId};
use pkg_state::Class;

/// What becomes of a package by a decision on its line.
#[derive(Clone, Copy, Debug, PartialEq, Eq)]
pub enum Fate {
    Comes,
    Goes,
    Stays,
}

/// The package that a decision is about.
#[derive(Debug, Drop)]
pub struct Pick {
    pub id: PackageId,
    pub fate: Fate,
}

/// What is open of a dead end, which nothing closes.
#[derive(Debug, Drop)]
pub enum Lack {
    /// No decided line has a package that the wanted atom matches.
    Wanted(Atom),
    /// The flags of the package don't go together.
    Flags(PackageId),
    /// The first package can't stand beside the second.
    Conflict(PackageId, PackageId),
    /// What the package needs in this class isn't there: the leaf to name, if there is one, and
    /// whether any line may have a package that the leaf matches.
    Need(PackageId, Class, Option<Atom>, bool),
    /// Nothing conflicts with the package that is to go.
    Forsaken(PackageId),
}

/// A choice that the search met, of which something is open that nothing closes.
#[derive(Debug, Drop)]
pub struct DeadEnd {
    /// What it decides, the newest decision first.
    pub chosen: Vec<Pick>,
    pub lacks: Lack,
}
