/// The greatest number of entries of an image.
pub const MOST_ENTRIES: usize = 100_000;
