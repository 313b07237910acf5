ghost use Rattle.std.specs.Prelude.{◌≡◌, OnOk, filter, not};
ghost use Rattle.std.specs.List.{list_any};
ghost use Rattle.profile_lines.specs.Stacks.{has_text, stands_once, with_entries, with_entry};
ghost use Rattle.profile_lines.specs.Stacks.{with_item};

use crate::item::{Entry, Form, Item};
use basics::Text;
use std::alloc::AllocError;

/// Counts the lines of a file of this form in what stands.
pub fn count_entries(
    form: Form,
    standing: &mut Vec<Item>,
    lines: Vec<Entry>,
) -> Result<(), AllocError>
    ensures { OnOk result (standing.new.items
        ≡ with_entries form standing.old.items lines.items) }
{
    for line in lines {
        count(form, standing, line)?;
    }
    Ok(())
}

/// Counts one line.
fn count(form: Form, standing: &mut Vec<Item>, line: Entry) -> Result<(), AllocError>
    ensures { OnOk result (standing.new.items ≡ with_entry form standing.old.items line) }
{
    let Entry { takes_back, item } = line;
    if takes_back {
        take_back(standing, &item.text);
        return Ok(());
    }
    add(form, standing, item)
}

/// Takes back the items of this text.
fn take_back(standing: &mut Vec<Item>, text: &Text)
    ensures { standing.new.items ≡
        filter (λ item. not (has_text text.now item)) standing.old.items }
{
    standing.retain(|item| item.text != *text);
}

fn add(form: Form, standing: &mut Vec<Item>, item: Item) -> Result<(), AllocError>
    ensures { OnOk result (standing.new.items ≡ with_item form standing.old.items item) }
{
    if stands_once(form) && has_text(standing, &item.text) {
        return Ok(());
    }
    standing.push(item)?;
    Ok(())
}

/// Whether a repeated item stands once.
fn stands_once(form: Form) -> bool
    ensures { result ≡ stands_once form }
{
    match form {
        Form::Masks => true,
        Form::Rules | Form::Flags | Form::Keywords => false,
    }
}

fn has_text(items: &[Item], text: &Text) -> bool
    ensures { result ≡ list_any (has_text text.now) items.now }
{
    items.iter().any(|item| item.text == *text)
}
