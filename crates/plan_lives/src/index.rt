use crate::life::Life;
use crate::reach::Reach;
use pkg_state::{ByText, Pkg};

/// What the rules look up.
#[derive(Drop)]
pub struct Index<'a> {
    pub start: &'a [Pkg],
    pub reach: &'a Reach<'a>,
    /// All lives, in the order of packages.
    pub lives: &'a [Life<'a>],
    pub by_line: ByText<'a, Life<'a>>,
    pub by_name: ByText<'a, Life<'a>>,
}
