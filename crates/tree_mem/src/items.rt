ghost use Rattle.std.specs.Prelude.{◌≡◌, ◌≤◌, ◌<◌, ◌++◌, ◌∷◌, ◌↔◌, ℕ, List, [], Some, None, true};
ghost use Rattle.std.specs.Prelude.{Contains, IfOk, IsSome, IsTrue, MatchResult, insert, nat_eq};
ghost use Rattle.std.specs.Prelude.{string_bytes, vec_capacity, vec_len};
ghost use Rattle.std.specs.Cmp.Lexicographic.{slice_cmp};
ghost use Rattle.std.specs.List.{starts_with};
ghost use Rattle.std.specs.List.Sorted.{IsStrictlySortedBy};
ghost use Rattle.std.specs.Option.{option_copied};
ghost use Rattle.std.specs.Ordering.{nat_cmp};
ghost use Rattle.file_tree.specs.Disk.{HasBelow, Lists, Looks, with_path};
ghost use Rattle.tree_mem.specs.Items.{GoesAt, IsRising, StandsAt, StartsAt, front, held};

use file_tree::{Look, Object, Path};
use std::alloc::{AllocError, Global};
use std::cmp::Ordering;
use std::mem;

/// The place of the item with this path, or the place where it belongs.
pub fn find(items: &[(Path, Object)], text: &str) -> Result<usize, usize>
    requires rising { IsRising items.now }
    ensures { MatchResult result (λ i. StandsAt items.now text.now i)
        (λ i. GoesAt items.now text.now i) }
{
    let mut low = 0;
    let mut high = items.len();
    while low < high {
        let middle = low + (high - low) / 2;
        let item = &items[middle];
        match item.0.text().cmp(text) {
            Ordering::Less => low = middle + 1,
            Ordering::Equal => return Ok(middle),
            Ordering::Greater => high = middle,
        }
    }
    Err(low)
}

/// Puts an item in at a place, where there is room for it.
fn insert_at(items: &mut Vec<(Path, Object)>, at: usize, item: (Path, Object))
    requires room { vec_len items.old < vec_capacity items.old }
    requires in_range { at ≤ vec_len items.old }
    ensures { items.new.items ≡ insert items.old.items at item }
{
    items.insert(at, item).unwrap()
}

/// Makes the path hold the object, where there is room for it. Gives what it held.
pub fn store(items: &mut Vec<(Path, Object)>, path: Path, object: Object) -> Option<Object>
    requires room { vec_len items.old < vec_capacity items.old }
    requires rising { IsRising items.old.items }
    ensures rising { IsRising items.new.items }
    ensures held { held items.new.items ≡ with_path (held items.old.items) path (Some object) }
    ensures before { result ≡ held items.old.items path }
{
    match find(items.as_slice(), path.text()) {
        Ok(at) => {
            let (_, old) = mem::replace(&mut items[at], (path, object));
            Some(old)
        }
        Err(at) => {
            insert_at(items, at, (path, object));
            None
        }
    }
}

/// Makes the path hold nothing. Gives what it held.
pub fn clear(items: &mut Vec<(Path, Object)>, path: &Path) -> Option<Object>
    requires rising { IsRising items.old.items }
    ensures rising { IsRising items.new.items }
    ensures held { held items.new.items ≡ with_path (held items.old.items) path.now None }
    ensures before { result ≡ held items.old.items path.now }
{
    match find(items.as_slice(), path.text()) {
        Ok(at) => {
            let (_, old) = items.remove(at);
            Some(old)
        }
        Err(_) => None,
    }
}

/// What the path holds.
pub fn get<'a>(items: &'a [(Path, Object)], path: &Path) -> Option<&'a Object>
    requires rising { IsRising items.now }
    ensures { option_copied result ≡ held items.now path.now }
{
    match find(items, path.text()) {
        Ok(at) => Some(&items[at].1),
        Err(_) => None,
    }
}

/// The front of all paths below this one.
fn folder(alloc: Global, path: &Path) -> Result<String, AllocError>
    ensures { IfOk result (λ s. string_bytes s ≡ path.now ++ 47 ∷ []) }
{
    let mut folder = String::from_str(alloc, path.text())?;
    folder.push_str("/")?;
    Ok(folder)
}

/// The place from which on no item comes before the text.
fn start(items: &[(Path, Object)], text: &str) -> usize
    requires rising { IsRising items.now }
    ensures { StartsAt items.now text.now result }
{
    match find(items, text) {
        Ok(at) => at,
        Err(at) => at,
    }
}

fn begins(path: &Path, text: &str) -> bool
    ensures { result ≡ starts_with nat_eq path.now text.now }
{
    path.text().as_bytes().starts_with(text.as_bytes())
}

/// Whether the first item that doesn't come before the text begins with it.
fn has_under(items: &[(Path, Object)], text: &str) -> bool
    requires rising { IsRising items.now }
    ensures { IsTrue result ↔ ((q : List ℕ) × (starts_with nat_eq q text.now ≡ true) ×
        IsSome (held items.now q)) }
{
    let at = start(items, text);
    at < items.len() && begins(&items[at].0, text)
}

/// Whether something below the path is held.
fn has_below(alloc: Global, items: &[(Path, Object)], path: &Path) -> Result<bool, AllocError>
    requires rising { IsRising items.now }
    ensures { IfOk result (λ b. IsTrue b ↔ HasBelow (held items.now) path.now) }
{
    let folder = folder(alloc, path)?;
    Ok(has_under(items, folder.as_str()))
}

/// What a look at the path finds.
pub fn look(alloc: Global, items: &[(Path, Object)], path: &Path) -> Result<Look, AllocError>
    requires rising { IsRising items.now }
    ensures { IfOk result (λ l. Looks (held items.now) path.now l) }
{
    match get(items, path) {
        Some(object) => Ok(Look::Item(object.kind)),
        None => {
            if has_below(alloc, items, path)? {
                Ok(Look::Folder)
            } else {
                Ok(Look::Nothing)
            }
        }
    }
}

/// The paths at the front of the items that begin with the text.
fn front_of(alloc: Global, items: &[(Path, Object)], text: &str) -> Result<Vec<Path>, AllocError>
    ensures { IfOk result (λ v. v.items ≡ front text.now items.now) }
{
    let mut paths = Vec::new(alloc);
    for (path, _) in items {
        if !begins(path, text) {
            break;
        }
        paths.push(path.try_clone()?)?;
    }
    Ok(paths)
}

/// The paths below this one that hold something, in byte order.
pub fn list(alloc: Global, items: &[(Path, Object)], below: &Path) -> Result<Vec<Path>, AllocError>
    requires rising { IsRising items.now }
    ensures answer { IfOk result (λ v. Lists (held items.now) below.now v.items) }
    ensures rising { IfOk result (λ v. IsStrictlySortedBy (slice_cmp nat_cmp) v.items) }
{
    let folder = folder(alloc, below)?;
    let at = start(items, folder.as_str());
    let paths = front_of(alloc, &items[at..], folder.as_str())?;
    Ok(paths)
}
