/// The most groups of a plan.
pub const MOST_GROUPS: u32 = 4096;
