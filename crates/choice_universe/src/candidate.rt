use pkg_state::Pkg;

/// A visible candidate: a package for each setting of its flags that may be chosen, in the order in
/// which they are tried.
#[derive(Drop)]
pub struct Candidate {
    pub variants: Vec<Pkg>,
}
