ghost use Rattle.std.specs.Prelude.{◌≡◌, ◌≤◌, None, Some, true, [], IfErr, IfOk, IsErrOf, IsTrue};
ghost use Rattle.std.specs.Prelude.{OnErr, OnOk, map};
ghost use Rattle.std.specs.List.{AllByRecursion};
ghost use Rattle.file_tree.specs.Disk.{CountsFault};
ghost use Rattle.merge_journal.specs.Judging.{are_free};
ghost use Rattle.file_tree.specs.Fixed.{jobs};
ghost use Rattle.owner_book.specs.Book.{ChangesClaim, HasOwnersOf, claim_in, owner_in, path_of};
ghost use Rattle.owner_book.specs.Removing.{IsIndexed};
ghost use Rattle.merge_site.specs.Claiming.{IsClearFor, IsTakenIn, MayClaim, Stops, StopsAt};
ghost use Rattle.merge_site.specs.Claiming.{may_hold};
ghost use Rattle.merge_site.specs.Claiming.{record_paths};
ghost use Rattle.merge_site.specs.Stopping.{EarlyStops, LateStops, LookStops};

use crate::fault::ClaimStop;
use file_tree::{Path, TakenPaths, Tree, TreeFault};
use merge_fit::block_of;
use merge_journal::{jobs_folder, take_free, take_paths};
use merge_record::OwnerKey;
use owner_book::{Collision, OwnerBook, Wish};
use std::alloc::{AllocError, Global};

fn copied_wishes(alloc: Global, wishes: &[Wish]) -> Result<Vec<Wish>, AllocError>
    ensures { IfOk result (λ v. v.items ≡ wishes.now) }
{
    let mut copies = Vec::with_capacity(alloc, wishes.len())?;
    for wish in wishes {
        let path = wish.path.try_clone()?;
        copies.push(Wish {
            path,
            owner: wish.owner,
            folder: wish.folder,
        })?;
    }
    Ok(copies)
}

fn copied_paths(alloc: Global, paths: &[Path]) -> Result<Vec<Path>, AllocError>
    ensures { IfOk result (λ v. v.items ≡ paths.now) }
{
    let mut copies = Vec::with_capacity(alloc, paths.len())?;
    for path in paths {
        copies.push(path.try_clone()?)?;
    }
    Ok(copies)
}

/// Claims what a group wishes and removes in the book, or leaves it as it is.
fn claim_paths(
    alloc: Global,
    book: &mut OwnerBook,
    group: u32,
    wishes: &[Wish],
    removals: &[Path],
    dying: &[OwnerKey],
) -> Result<(), ClaimStop>
    requires new { claim_in book.old.claims group ≡ None }
    ensures taken { OnOk result (IsTakenIn book.old dying.now wishes.now removals.now) }
    ensures owners { OnOk result (HasOwnersOf book.old book.new) }
    ensures claims { OnOk result (ChangesClaim book.old book.new group
        (Some (record { placed = wishes.now; removed = removals.now }))) }
    ensures indexed { OnOk result (IsIndexed book.old) }
    ensures stopped { IfErr result (Stops book.old dying.now wishes.now removals.now) }
    ensures early { IfErr result EarlyStops }
    ensures kept { OnErr result (book.new ≡ book.old) }
{
    if let Some(path) = book.first_kept(alloc, dying, removals)? {
        return Err(ClaimStop::Removal { path });
    }
    let placed = copied_wishes(alloc, wishes)?;
    let removed = copied_paths(alloc, removals)?;
    match book.claim(alloc, group, placed, removed, dying) {
        Ok(()) => Ok(()),
        Err(fault) => Err(ClaimStop::of(fault)),
    }
}

fn take_wishes(
    alloc: Global,
    journal: &Path,
    wishes: &[Wish],
    taken: &mut TakenPaths,
) -> Result<bool, AllocError>
    requires { journal.now ≡ jobs }
    ensures { IfOk result (λ free. free ≡ are_free taken.old (map path_of wishes.now)) }
{
    for wish in wishes {
        if !take_free(alloc, journal, &wish.path, taken)? {
            return Ok(false);
        }
    }
    Ok(true)
}

/// Whether the paths of a record are different, and outside the journal.
fn are_apart(alloc: Global, removals: &[Path], wishes: &[Wish]) -> Result<bool, AllocError>
    ensures { IfOk result (λ b. b ≡ are_free [] (record_paths removals.now wishes.now)) }
{
    let journal = jobs_folder(alloc)?;
    let mut taken = TakenPaths::new(alloc);
    if !take_paths(alloc, &journal, removals, &mut taken)? {
        return Ok(false);
    }
    take_wishes(alloc, &journal, wishes, &mut taken)
}

/// Whether a wish's path may hold an object.
fn may_hold(book: &OwnerBook, wish: &Wish) -> bool
    ensures { result ≡ may_hold (owner_in book.now.owned) wish.now }
{
    wish.folder || book.owner(&wish.path).is_some()
}

/// Looks at the paths of a group's wishes in their order: the first that something nobody owns is in
/// the way of stops the claim.
fn judge_looks<T: Tree>(
    alloc: Global,
    tree: &mut T,
    book: &OwnerBook,
    wishes: &[Wish],
) -> Result<(), ClaimStop>
    ensures clear { IsTrue T.tells → OnOk result (AllByRecursion
        (IsClearFor (T.story tree.old).now.holds (owner_in book.now.owned)) wishes.now) }
    ensures met { IsTrue T.tells → IfErr result
        (StopsAt (T.story tree.old).now.holds (owner_in book.now.owned) wishes.now) }
    ensures few { IfErr result LookStops }
    ensures same { IsTrue T.tells → T.story tree.new ≡ T.story tree.old }
    ensures faults { CountsFault (IsErrOf result (ClaimStop.Tree TreeFault.Failed))
        (T.faults tree.old) (T.faults tree.new) }
{
    for wish in wishes {
        match block_of(alloc, tree, &wish.path, may_hold(book, wish)) {
            Ok(None) => {}
            Ok(Some(path)) => return Err(ClaimStop::Collision(Collision::Unowned { path })),
            Err(fault) => return Err(ClaimStop::Tree(fault)),
        }
    }
    Ok(())
}

/// Judges what the book has taken: the paths of the record, and what stands in the tree.
fn judge_claimed<T: Tree>(
    alloc: Global,
    tree: &mut T,
    book: &OwnerBook,
    wishes: &[Wish],
    removals: &[Path],
) -> Result<(), ClaimStop>
    ensures apart { OnOk result (are_free [] (record_paths removals.now wishes.now) ≡ true) }
    ensures clear { IsTrue T.tells → OnOk result (AllByRecursion
        (IsClearFor (T.story tree.old).now.holds (owner_in book.now.owned)) wishes.now) }
    ensures met { IsTrue T.tells → IfErr result
        (StopsAt (T.story tree.old).now.holds (owner_in book.now.owned) wishes.now) }
    ensures late { IfErr result (LateStops (record_paths removals.now wishes.now)) }
    ensures same { IsTrue T.tells → T.story tree.new ≡ T.story tree.old }
    ensures faults { CountsFault (IsErrOf result (ClaimStop.Tree TreeFault.Failed))
        (T.faults tree.old) (T.faults tree.new) }
{
    if !are_apart(alloc, removals, wishes)? {
        return Err(ClaimStop::Overlap);
    }
    judge_looks(alloc, tree, book, wishes)
}

/// Judges what a group claims, and takes it into the book, or leaves that as it is.
pub(crate) fn judge_claim<T: Tree>(
    alloc: Global,
    tree: &mut T,
    book: &mut OwnerBook,
    group: u32,
    wishes: &[Wish],
    removals: &[Path],
    dying: &[OwnerKey],
) -> Result<(), ClaimStop>
    requires new { claim_in book.old.claims group ≡ None }
    ensures granted { OnOk result (MayClaim book.old dying.now wishes.now removals.now) }
    ensures owners { OnOk result (HasOwnersOf book.old book.new) }
    ensures claims { OnOk result (ChangesClaim book.old book.new group
        (Some (record { placed = wishes.now; removed = removals.now }))) }
    ensures clear { IsTrue T.tells → OnOk result (AllByRecursion
        (IsClearFor (T.story tree.old).now.holds (owner_in book.old.owned)) wishes.now) }
    ensures stopped { IfErr result (Stops book.old dying.now wishes.now removals.now) }
    ensures met { IsTrue T.tells → IfErr result
        (StopsAt (T.story tree.old).now.holds (owner_in book.old.owned) wishes.now) }
    ensures kept { OnErr result (book.new ≡ book.old) }
    ensures same { IsTrue T.tells → T.story tree.new ≡ T.story tree.old }
    ensures faults { CountsFault (IsErrOf result (ClaimStop.Tree TreeFault.Failed))
        (T.faults tree.old) (T.faults tree.new) }
{
    let taken = claim_paths(alloc, book, group, wishes, removals, dying);
    if taken.is_err() {
        return taken;
    }
    let judged = judge_claimed(alloc, tree, book, wishes, removals);
    if judged.is_err() {
        book.release(group);
    }
    judged
}
