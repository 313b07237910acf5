use basics::Text;
use dep_atom::Atom;

/// A line of `package.accept_keywords`.
#[derive(Debug, Drop)]
pub struct KeywordLine {
    pub atom: Atom,
    /// Keywords, each of which a hyphen takes back; `-*` takes all back. There may be none.
    pub words: Vec<Text>,
}
