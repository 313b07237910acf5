ghost use Rattle.std.specs.Prelude.{◌≡◌, ◌∷◌, IfOk, MatchOption, None, OnOk, Some, map};
ghost use Rattle.profile_folders.specs.Stacks.{hyphen, stacked, taken_back, unsigned, with_text};

use indexmap::IndexSet;
use std::alloc::{AllocError, Global};

/// What stands behind all of the texts, in the order in which it was first added: a text adds
/// itself, and behind a hyphen it takes an equal item back.
pub fn stacked<'a>(alloc: Global, texts: &[&'a str]) -> Result<Vec<&'a str>, AllocError>
    ensures { IfOk result (λ v. map (λ x. x.now) v.items
        ≡ stacked (map (λ x. x.now) texts.now)) }
{
    let mut standing = IndexSet::new(alloc);
    for text in texts {
        count(&mut standing, text)?;
    }
    in_order(alloc, standing)
}

/// Counts the text in what stands.
fn count<'a>(standing: &mut IndexSet<&'a str>, text: &'a str) -> Result<(), AllocError>
    ensures { OnOk result (map (λ x. x.now) standing.new.keys
        ≡ with_text (map (λ x. x.now) standing.old.keys) text.now) }
{
    match taken_back(text) {
        Some(item) => {
            standing.shift_remove(item);
        }
        None => {
            standing.insert(text)?;
        }
    }
    Ok(())
}

/// The item that the text takes back.
pub fn taken_back(text: &str) -> Option<&str>
    ensures { MatchOption result (taken_back text.now ≡ None)
        (λ item. taken_back text.now ≡ Some item.now) }
{
    text.strip_prefix('-')
}

/// The text without a hyphen before it.
pub fn unsigned(text: &str) -> &str
    ensures { result.now ≡ unsigned text.now }
{
    match taken_back(text) {
        Some(item) => item,
        None => text,
    }
}

fn in_order<'a>(alloc: Global, standing: IndexSet<&'a str>) -> Result<Vec<&'a str>, AllocError>
    ensures { IfOk result (λ v. v.items ≡ standing.entry.keys) }
{
    standing.into_iter().collect(alloc)
}
