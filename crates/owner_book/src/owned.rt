ghost use Rattle.std.specs.Prelude.{◌≡◌, ◌++◌, ◌∷◌, [], ℕ, List, true, IfOk, IsTrue, OnOk};
ghost use Rattle.file_tree.specs.PathSets.{is_in};
ghost use Rattle.file_tree.specs.Paths.{is_path};
ghost use Rattle.owner_book.specs.Book.{is_owner, owner_in, paths_of};
ghost use Rattle.owner_book.specs.Marks.{owner_of};
ghost use Rattle.owner_book.specs.Named.{named_under, owned_among};
ghost use Rattle.owner_book.specs.Slots.{slot_at};

use crate::book::OwnerBook;
use crate::index::{Index, Slot};
use crate::named::Named;
use basics::Text;
use file_tree::Path;
use merge_record::OwnerKey;
use std::alloc::{AllocError, Global};

fn is_owner(owner: OwnerKey, slot: &Slot) -> bool
    ensures { result ≡ is_owner owner slot.now.owner }
{
    match slot.owner {
        Some(other) => owner.number == other.number,
        None => false,
    }
}

/// Whether the package owns the path of a text.
fn owns(index: &Index, owner: OwnerKey, text: &Text) -> bool
    ensures owned { result ≡ is_owner owner (owner_of (slot_at index.now text.now)) }
    ensures path { IsTrue result → is_path text.now ≡ true }
{
    match index.get(text.as_str().as_bytes()) {
        Some(slot) => is_owner(owner, slot),
        None => false,
    }
}

/// Puts the path of a text behind others, where the package owns it.
fn add_owned(
    alloc: Global,
    index: &Index,
    owner: OwnerKey,
    text: &Text,
    paths: &mut Vec<Path>,
) -> Result<(), AllocError>
    ensures { OnOk result (paths.new.items ≡
        paths.old.items ++ owned_among index.now owner (text.now ∷ [])) }
{
    if owns(index, owner, text) {
        paths.push(Path::of(alloc, text.as_str())?)?;
    }
    Ok(())
}

/// Of the paths under the number of a package those that it owns by the index.
fn owned_paths(
    alloc: Global,
    index: &Index,
    named: &Named,
    owner: OwnerKey,
) -> Result<Vec<Path>, AllocError>
    ensures { IfOk result (λ paths. paths.items ≡
        owned_among index.now owner (named_under named.now owner.number)) }
{
    let number = u64::from(owner.number);
    let start = Named::first_under(alloc, number);
    let end = Named::first_under(alloc, number + 1);
    let mut paths = Vec::new(alloc);
    for key in named.keys.range(start..end) {
        add_owned(alloc, index, owner, &key.1, &mut paths)?;
    }
    Ok(paths)
}

impl OwnerBook {
    /// The paths that a package owns, in byte order. What stands under its number is looked up, and
    /// nothing else of the book.
    pub fn paths_of(&self, alloc: Global, owner: OwnerKey) -> Result<Vec<Path>, AllocError>
        ensures paths { IfOk result (λ paths. paths.items ≡ paths_of self.now.owned owner) }
        ensures owned { IfOk result (λ paths. (q : List ℕ) →
            is_in paths.items q ≡ is_owner owner (owner_in self.now.owned q)) }
    {
        let _order = self.index.len();
        let _rising = self.named.keys.len();
        let paths = owned_paths(alloc, &self.index, &self.named, owner)?;
        Ok(paths)
    }
}
