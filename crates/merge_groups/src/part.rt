/// What is asked of a line under a choice: the package that goes, the one that comes, or the one
/// that stands there afterwards.
#[derive(Clone, Copy, Debug)]
pub(crate) enum Part {
    Going,
    Coming,
    Standing,
}
