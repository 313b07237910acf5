use pkg_state::Pkg;

/// When something happens: before all groups, with a group of the plan, or behind them all.
#[derive(Clone, Copy, Debug)]
pub enum Moment {
    Opening,
    /// The group at this place.
    Commit(usize),
    Never,
}

/// How long a package is there.
#[derive(Clone, Copy, Debug)]
pub struct Life<'a> {
    pub pkg: &'a Pkg,
    pub birth: Moment,
    pub death: Moment,
}
