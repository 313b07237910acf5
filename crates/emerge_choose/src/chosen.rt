use plan_lives as lives;
use plan_text as text;

/// What a command is to do: the plan as a text has it, and as it was checked. An addition of the
/// text has the slots, the flags and the binds with which its package is built; at the same place
/// the checked plan has the package as it enters.
#[derive(Debug, Drop)]
pub struct Chosen {
    pub text: text::Plan,
    pub plan: lives::Plan,
}
