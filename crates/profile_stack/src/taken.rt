ghost use Rattle.std.specs.Prelude.{◌≡◌};
ghost use Rattle.profile_stack.specs.Files.{is_taken_back, left_of};

use profile_lines::{Entry, Item};

/// Keeps the items that none of the lines takes back.
pub(crate) fn keep_others(items: &mut Vec<Item>, lines: &[Entry])
    ensures { items.new.items ≡ left_of lines.now items.old.items }
{
    items.retain(|item| !is_taken_back(lines, item));
}

/// Whether one of the lines takes the item back.
fn is_taken_back(lines: &[Entry], item: &Item) -> bool
    ensures { result ≡ is_taken_back lines.now item.now }
{
    lines
        .iter()
        .any(|line| line.takes_back && item.text == line.item.text)
}
