use dep_atom::Atom;
use pkg_state::Class;

/// What has to be settled before a choice is a solution.
#[derive(Clone, Copy, Debug)]
pub enum Obligation<'a> {
    /// No decided line has a package that the wanted atom matches.
    Wanted(&'a Atom),
    /// The flags of the package on the line don't go together.
    Required(usize),
    /// The package on the first line can't stand beside that on the second.
    Conflict(usize, usize),
    /// What the package on the line needs in this class isn't there.
    Tree(usize, Class),
    /// Nothing conflicts with the package that is to leave the line.
    Absence(usize),
}
