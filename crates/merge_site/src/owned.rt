ghost use Rattle.std.specs.Prelude.{◌≡◌, ◌<◌, ℕ, List, IfOk, length};
ghost use Rattle.file_tree.specs.PathSets.{is_in};
ghost use Rattle.owner_book.specs.Book.{is_owner, owner_in, paths_of};
ghost use Rattle.owner_book.specs.Removing.{goes};
ghost use Rattle.owner_book.specs.Rules.{is_dying};
ghost use Rattle.merge_site.specs.Booking.{dying_at, owned_by};

use crate::site::Site;
use file_tree::{Path, Sink, Tree};
use merge_record::OwnerKey;
use owner_book::OwnerBook;
use std::alloc::{AllocError, Global};

/// The paths that these packages own, package by package.
fn owned_by(alloc: Global, book: &OwnerBook, owners: &[OwnerKey]) -> Result<Vec<Path>, AllocError>
    ensures paths { IfOk result (λ paths. paths.items ≡ owned_by book.now owners.now) }
    ensures owned { IfOk result (λ paths. (q : List ℕ) →
        is_in paths.items q ≡ goes (is_dying owners.now) (owner_in book.now.owned q)) }
{
    let mut paths = Vec::new(alloc);
    for owner in owners {
        let mut owned = book.paths_of(alloc, *owner)?;
        paths.append(&mut owned)?;
    }
    Ok(paths)
}

impl<T: Tree, S: Sink> Site<T, S> {
    /// The paths that a package owns now, in byte order.
    pub fn paths_of(&self, owner: OwnerKey) -> Result<Vec<Path>, AllocError>
        ensures paths { IfOk result
            (λ paths. paths.items ≡ paths_of self.now.book.owned owner) }
        ensures owned { IfOk result (λ paths. (q : List ℕ) →
            is_in paths.items q ≡ is_owner owner (owner_in self.now.book.owned q)) }
    {
        self.book.paths_of(self.alloc, owner)
    }

    /// The paths that the packages own now which go with a group, package by package.
    pub fn dying_paths(&self, group: u32) -> Result<Vec<Path>, AllocError>
        requires { group < length self.now.groups }
        ensures paths { IfOk result (λ paths.
            paths.items ≡ owned_by self.now.book (dying_at self.now.groups group)) }
        ensures owned { IfOk result (λ paths. (q : List ℕ) → is_in paths.items q
            ≡ goes (is_dying (dying_at self.now.groups group)) (owner_in self.now.book.owned q)) }
    {
        owned_by(self.alloc, &self.book, &self.groups[group as usize].dying)
    }
}
