ghost use Rattle.std.specs.Prelude.{◌≡◌, [], ℕ, List, Some, true, OnOk};
ghost use Rattle.merge_record.specs.declared.record.OwnerKey.{OwnerKey};
ghost use Rattle.file_tree.specs.PathSets.{is_in};
ghost use Rattle.owner_book.specs.Book.{key_in};
ghost use Rattle.owner_book.specs.Named.{is_named};

use crate::wish::Wish;
use basics::Text;
use file_tree::Path;
use merge_record::OwnerKey;
use std::alloc::{AllocError, Global};
use std::collections::BTreeSet;

/// Paths under the numbers of packages, in the order of the numbers and then in byte order. Each path
/// stands under the package that owns it, and under each that is to own it by a claim. One that its
/// package has lost, or was not given, may stand there too.
#[derive(Drop)]
pub(crate) struct Named {
    pub(crate) keys: BTreeSet<(u64, Text)>,
}

impl Named {
    pub(crate) fn new(alloc: Global) -> Named {
        Named {
            keys: BTreeSet::new(alloc),
        }
    }

    /// Where what stands under a number begins.
    pub(crate) fn first_under(alloc: Global, number: u64) -> (u64, Text)
        ensures { result ≡ (number, []) }
    {
        (number, Text::from_string(String::new(alloc)))
    }

    /// Puts a path under the number of a package.
    pub(crate) fn name(
        &mut self,
        alloc: Global,
        owner: OwnerKey,
        path: &Path,
    ) -> Result<(), AllocError>
        ensures named { OnOk result (is_named self.new owner.number path.now ≡ true) }
        ensures stays { (n : ℕ) (q : List ℕ) →
            is_named self.old n q ≡ true → is_named self.new n q ≡ true }
    {
        let text = Text::new(alloc, path.text())?;
        self.keys.insert((u64::from(owner.number), text))?;
        Ok(())
    }

    /// Puts each of these paths under the number of a package.
    pub(crate) fn name_paths(
        &mut self,
        alloc: Global,
        owner: OwnerKey,
        paths: &[Path],
    ) -> Result<(), AllocError>
        ensures named { OnOk result ((q : List ℕ) →
            is_in paths.now q ≡ true → is_named self.new owner.number q ≡ true) }
        ensures stays { (n : ℕ) (q : List ℕ) →
            is_named self.old n q ≡ true → is_named self.new n q ≡ true }
    {
        for path in paths {
            self.name(alloc, owner, path)?;
        }
        Ok(())
    }

    /// Puts each path that is wished under the package that is to own it.
    pub(crate) fn name_all(&mut self, alloc: Global, placed: &[Wish]) -> Result<(), AllocError>
        ensures named { OnOk result ((q : List ℕ) (k : OwnerKey) →
            key_in placed.now q ≡ Some k → is_named self.new k.number q ≡ true) }
        ensures stays { (n : ℕ) (q : List ℕ) →
            is_named self.old n q ≡ true → is_named self.new n q ≡ true }
    {
        for wish in placed {
            self.name(alloc, wish.owner, &wish.path)?;
        }
        Ok(())
    }
}
