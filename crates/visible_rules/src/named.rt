ghost use Rattle.std.specs.Prelude.{◌≡◌, ℕ, IfOk, List, OnOk, map};
ghost use Rattle.pkg_state.specs.Index.{listed};
ghost use Rattle.visible_rules.specs.Index.{AreUnder, is_item_of, is_line_of, with_item};

use crate::line::KeywordLine;
use pkg_state::ByText;
use profile_lines::Item;
use std::alloc::{AllocError, Global};

/// The items under the names of their atoms.
pub(crate) fn items_by_name<'a>(
    alloc: Global,
    items: &'a [Item],
) -> Result<ByText<'a, &'a Item>, AllocError>
    ensures { IfOk result (λ named. AreUnder is_item_of items.now named.lists) }
{
    let mut named = ByText::new(alloc);
    for item in items {
        add_item(alloc, &mut named, item)?;
    }
    Ok(named)
}

fn add_item<'a>(
    alloc: Global,
    named: &mut ByText<'a, &'a Item>,
    item: &'a Item,
) -> Result<(), AllocError>
    ensures { OnOk result ((name : List ℕ) → map (λ i. i.now) (listed named.new.lists name) ≡
        with_item name (map (λ i. i.now) (listed named.old.lists name)) item.now) }
{
    match &item.atom {
        Some(atom) => named.add(alloc, atom.name.package.text(), item),
        None => Ok(()),
    }
}

/// The lines under the names of their atoms.
pub(crate) fn lines_by_name<'a>(
    alloc: Global,
    lines: &'a [KeywordLine],
) -> Result<ByText<'a, &'a KeywordLine>, AllocError>
    ensures { IfOk result (λ named. AreUnder is_line_of lines.now named.lists) }
{
    let mut named = ByText::new(alloc);
    for line in lines {
        named.add(alloc, line.atom.name.package.text(), line)?;
    }
    Ok(named)
}
