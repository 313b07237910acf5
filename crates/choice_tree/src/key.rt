/// By what a line is found: the names of its packages, their whole texts, or the names of their
/// leaves.
#[derive(Clone, Copy, Debug)]
pub enum Key {
    Own,
    Whole,
    Leaf,
}
