use choice_tree::{Decision, Value};

/// A decision on the way to a choice.
#[derive(Clone, Copy, Debug)]
pub(crate) struct Turn {
    pub(crate) decision: Decision,
    /// What was decided of its line before.
    pub(crate) before: Option<Value>,
    /// A step began with it.
    pub(crate) begins: bool,
}
