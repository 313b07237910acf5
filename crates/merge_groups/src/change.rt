/// The two kinds of changes that a plan's text has lines for.
#[derive(Clone, Copy, Debug)]
pub(crate) enum Change {
    Removal,
    Addition,
}
