/// The most bytes of a version.
pub const MOST_BYTES: usize = 255;

/// The most digits of a number: 10 ^ 38 is below 2 ^ 128.
pub const MOST_DIGITS: usize = 38;
