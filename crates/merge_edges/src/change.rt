use pkg_state::Pkg;

/// A line that changes, by its place in the universe: what is installed there and goes, and what
/// comes.
#[derive(Clone, Copy)]
pub struct Change<'a> {
    pub line: usize,
    pub old: Option<&'a Pkg>,
    pub new: Option<&'a Pkg>,
}
