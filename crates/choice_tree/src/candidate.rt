use crate::value::Value;
use pkg_state::Pkg;

/// A package that a line may have, and the value that means it.
#[derive(Clone, Copy)]
pub(crate) struct Candidate<'a> {
    pub(crate) line: usize,
    pub(crate) value: Value,
    pub(crate) owner: &'a Pkg,
}
