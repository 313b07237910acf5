/// The greatest number of groups whose gate holds an object, in a journal that is recovered.
pub const MOST_GATES: usize = 4_096;
