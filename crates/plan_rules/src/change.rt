ghost use Rattle.std.specs.Prelude.{◌≡◌};
ghost use Rattle.pkg_state.specs.Package.{line_text};

use pkg_state::LineName;
use pms_names::{Name, SlotName};

/// A line that a group changes.
#[derive(Drop)]
pub(crate) struct Change<'a> {
    pub(crate) name: &'a Name,
    pub(crate) slot: &'a SlotName,
    pub(crate) line: LineName,
    pub(crate) group: usize,
    ghost own: { line ≡ line_text name.now slot.now },
}

/// Two groups that change one line: that of a change, and a higher one.
#[derive(Clone, Copy)]
pub(crate) struct FoundPair<'c, 'a> {
    pub(crate) change: &'c Change<'a>,
    pub(crate) higher: usize,
}
