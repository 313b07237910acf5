use build_pool::Order;

/// What goes with a group of a plan.
#[derive(Drop)]
pub struct Job {
    /// The line that tells that the group is merged.
    pub line: Vec<u8>,
    /// What is ordered of a builder, for each of its additions in turn.
    pub orders: Vec<Order>,
}
