use dep_atom::Atom;

/// What a command wants.
#[derive(Drop)]
pub struct Wish {
    /// Each of these is to match a package.
    pub wanted: Vec<Atom>,
    /// A greater version goes before what is installed.
    pub update: bool,
    /// So many choices that were tried in vain are too many.
    pub limit: usize,
}
