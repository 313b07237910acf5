/// What may stand on a line.
#[derive(Clone, Copy, Debug, PartialEq, Eq)]
pub enum Value {
    /// What is installed there.
    Keep,
    /// Nothing.
    Absent,
    /// The variant at this place of the line's offer.
    Variant(usize),
}

/// What a line is to have. A line is told by its place in the universe.
#[derive(Clone, Copy, Debug)]
pub struct Decision {
    pub line: usize,
    pub value: Value,
}
