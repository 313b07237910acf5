use merge_record::OwnerKey;
use std::alloc::{AllocError, Global};
use std::collections::BTreeSet;

/// The packages that go, by number, so that one is looked up and not searched for in turn.
#[derive(Drop)]
pub(crate) struct Dying {
    numbers: BTreeSet<u32>,
}

impl Dying {
    ghost use Rattle.std.specs.Prelude.{◌≡◌, IfOk};
    ghost use Rattle.owner_book.specs.Going.{is_among};
    ghost use Rattle.owner_book.specs.Rules.{is_dying};

    pub(crate) fn of(alloc: Global, keys: &[OwnerKey]) -> Result<Dying, AllocError>
        ensures { IfOk result (λ d. is_among d ≡ is_dying keys.now) }
    {
        let mut numbers = BTreeSet::new(alloc);
        for key in keys {
            numbers.insert(key.number)?;
        }
        Ok(Dying { numbers })
    }

    /// Whether the package goes.
    pub(crate) fn has(&self, owner: OwnerKey) -> bool
        ensures { result ≡ is_among self.now owner }
    {
        self.numbers.contains(&owner.number)
    }
}
