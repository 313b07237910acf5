use crate::value::Decision;

/// What leads from a choice to an option of it: a decision, and before that, in a conflict, one by
/// which another line is held as it is.
#[derive(Clone, Copy, Debug)]
pub struct Step {
    pub held: Option<Decision>,
    pub decision: Decision,
}
