/// The most bytes of a name.
pub const MOST_BYTES: usize = 255;
