use crate::files::Files;
use file_tree::Path;

/// A group of a run of several: its number, what it removes, and what it places.
#[derive(Drop)]
pub struct Turn {
    pub group: u32,
    /// What the packages own that go with the group, but for the paths that it places.
    pub removals: Vec<Path>,
    /// What each of its packages places, with its owner. A group may bring none.
    pub packages: Vec<Files>,
}
