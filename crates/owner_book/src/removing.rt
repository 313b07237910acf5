ghost use Rattle.std.specs.Prelude.{◌≡◌, Some, false, IfOk, IsTrue, MatchOption};
ghost use Rattle.owner_book.specs.Going.{is_among};
ghost use Rattle.owner_book.specs.Removing.{AreRemovable, IsFirstKept, MayRemove, is_removable};
ghost use Rattle.owner_book.specs.Rules.{is_dying};

use crate::book::OwnerBook;
use crate::dying::Dying;
use crate::index::Slot;
use file_tree::Path;
use merge_record::OwnerKey;
use std::alloc::{AllocError, Global};

/// Whether a package that goes owns the path of a slot, and no claim has it.
fn is_removable(slot: &Slot, dying: &Dying) -> bool
    ensures { result ≡ is_removable (is_among dying.now) (Some slot.now) }
{
    match slot.owner {
        Some(owner) => dying.has(owner) && slot.mark.is_none(),
        None => false,
    }
}

impl OwnerBook {
    fn may_remove(&self, dying: &Dying, path: &Path) -> bool
        ensures may { IsTrue result → MayRemove self.now (is_among dying.now) path.now }
        ensures not { result ≡ false → ¬ MayRemove self.now (is_among dying.now) path.now }
    {
        match self.index.get(path.text().as_bytes()) {
            Some(slot) => is_removable(slot, dying),
            None => false,
        }
    }

    /// The first of these paths that a group may not remove, where these packages go: no such package
    /// owns it, or a claim has it.
    pub fn first_kept(
        &self,
        alloc: Global,
        dying: &[OwnerKey],
        paths: &[Path],
    ) -> Result<Option<Path>, AllocError>
        ensures { IfOk result (λ r.
            MatchOption r (AreRemovable self.now (is_dying dying.now) paths.now)
            (IsFirstKept self.now (is_dying dying.now) paths.now)) }
    {
        let going = Dying::of(alloc, dying)?;
        for path in paths {
            if !self.may_remove(&going, path) {
                return Ok(Some(path.try_clone()?));
            }
        }
        Ok(None)
    }
}
