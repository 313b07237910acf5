use pkg_state::Pkg;

/// A visible candidate.
#[derive(Debug, Drop)]
pub struct Candidate {
    /// The package with just the implicit flags on.
    pub offered: Pkg,
    /// A package for each setting of its flags that may be chosen, in the order in which they are
    /// tried.
    pub variants: Vec<Pkg>,
}
