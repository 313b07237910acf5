/// What is kept of a choice above the one where a walk is.
#[derive(Drop)]
pub(crate) struct Frame<S> {
    /// What rests on it that the options which were tried are barren.
    pub(crate) cause: Vec<usize>,
    /// The steps to the options that are still to be tried, the next one last.
    pub(crate) rest: Vec<S>,
}
