/// How a search ends.
#[derive(Debug, Drop)]
pub enum Outcome<C> {
    /// With the first good leaf.
    Found(C),
    /// There is no good leaf: the dead leaves that were met, in their order.
    NoneGood(Vec<C>),
    /// With as many dead leaves as are allowed: these, in their order.
    Limit(Vec<C>),
}
