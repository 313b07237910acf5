/// The greatest number of different paths that are owned or that claims place.
pub const MOST_PATHS: usize = 4_194_304;
