use basics::Text;
use dep_atom::Atom;
use use_flags::Change;

/// What the lines of a file are.
#[derive(Clone, Copy, Debug)]
pub enum Form {
    /// An atom, as in `package.mask`.
    Masks,
    /// An atom and changes of flags, as in `package.use`.
    Rules,
    /// Changes of flags, as in `use.mask`.
    Flags,
    /// An atom and keywords, as in `package.accept_keywords`.
    Keywords,
}

/// What a line says.
#[derive(Debug, Drop)]
pub struct Item {
    /// The words of the line, with one space between each two.
    pub text: Text,
    /// The packages of which it says something. Without an atom it is said of all.
    pub atom: Option<Atom>,
    /// What it says of their flags, in the order of the words. A mask changes none.
    pub changes: Vec<Change>,
    /// What it says of their keywords, word by word as they are written.
    pub keywords: Vec<Text>,
}

/// An item that a line adds or takes back.
#[derive(Debug, Drop)]
pub struct Entry {
    /// Whether the line takes back the items that are equal to this one.
    pub takes_back: bool,
    pub item: Item,
}
