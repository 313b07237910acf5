/// The greatest number of stages of one group.
pub const MOST_STAGES: usize = 4_294_967_296;
