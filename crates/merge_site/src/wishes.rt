ghost use Rattle.std.specs.Prelude.{◌≡◌, ◌<◌, [], List, IfOk, OnErr, OnOk, length, replicate};
ghost use Rattle.merge_site.specs.Booking.{lists_of, with_wish};
ghost use Rattle.owner_book.specs.declared.wish.Wish.{Wish};

use file_tree::Path;
use merge_record::OwnerKey;
use owner_book::Wish;
use std::alloc::{AllocError, Global};

/// The wishes of so many groups that have none.
pub(crate) fn new_wishes(alloc: Global, count: u32) -> Result<Vec<Vec<Wish>>, AllocError>
    ensures { IfOk result (λ v. lists_of v.items ≡ replicate count []) }
{
    let mut wishes = Vec::with_capacity(alloc, count as usize)?;
    for _ in 0..count {
        wishes.push(Vec::new(alloc))?;
    }
    Ok(wishes)
}

/// Takes a group's wish for a path.
pub(crate) fn add_wish(
    wishes: &mut Vec<Vec<Wish>>,
    group: u32,
    path: &Path,
    owner: OwnerKey,
    folder: bool,
) -> Result<(), AllocError>
    requires { group < length wishes.old.items }
    ensures ok { OnOk result (lists_of wishes.new.items ≡ with_wish (lists_of wishes.old.items)
        group (record { path = path.now; owner = owner; folder = folder })) }
    ensures err { OnErr result (lists_of wishes.new.items ≡ lists_of wishes.old.items) }
{
    let path = path.try_clone()?;
    let list = &mut wishes[group as usize];
    list.push(Wish {
        path,
        owner,
        folder,
    })?;
    Ok(())
}

/// Takes the last wish of a group away. It takes no memory.
pub(crate) fn drop_wish(wishes: &mut Vec<Vec<Wish>>, group: u32)
    requires { group < length wishes.old.items }
    ensures { (ws : List (List Wish)) (w : Wish) → group < length ws →
        lists_of wishes.old.items ≡ with_wish ws group w → lists_of wishes.new.items ≡ ws }
{
    let list = &mut wishes[group as usize];
    list.pop();
}
