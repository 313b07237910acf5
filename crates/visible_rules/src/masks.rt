ghost use Rattle.std.specs.Prelude.{◌≡◌, IfOk};
ghost use Rattle.std.specs.List.{list_any};
ghost use Rattle.visible_rules.specs.Items.{has_match};

use crate::meaning::is_meant;
use crate::named::items_by_name;
use dep_atom::Facts;
use pkg_state::ByText;
use profile_lines::Item;
use std::alloc::{AllocError, Global};
use std::marker::Model;

/// Masks, or unmasks, which are found by the names of their atoms. Contracts see their list.
#[derive(Drop)]
pub struct Masks<'a> {
    items: &'a [Item],
    named: ByText<'a, &'a Item>,
}

impl<'a> Model for Masks<'a> {
    ghost use Rattle.std.specs.Prelude.{List};
    ghost use Rattle.profile_lines.specs.declared.item.Item.{Item};
    ghost use Rattle.visible_rules.specs.Index.{AreUnder, is_item_of};

    ghost Value = { List Item };

    ghost view = { λ m. m.items.now };

    ghost invariant = { λ m. AreUnder is_item_of m.items.now m.named.lists };
}

impl<'a> Masks<'a> {
    /// The items, put in order by their names once.
    pub fn new(alloc: Global, items: &'a [Item]) -> Result<Masks<'a>, AllocError>
        ensures { IfOk result (λ m. m ≡ items.now) }
    {
        let named = items_by_name(alloc, items)?;
        Ok(Masks { items, named })
    }

    /// Whether the atom of some mask matches the package, for an asker without flags.
    pub fn any(&self, alloc: Global, facts: &Facts) -> bool
        ensures { result ≡ list_any (has_match facts.now) self.now }
    {
        any_match(alloc, self.named.get(facts.id.name.package.text()), facts)
    }
}

/// Whether one of the items has an atom, which matches the package.
fn any_match(alloc: Global, items: &[&Item], facts: &Facts) -> bool
    ensures { result ≡ list_any (λ i. has_match facts.now i.now) items.now }
{
    items.iter().any(|item| has_match(alloc, item, facts))
}

/// Whether the item has an atom, which matches the package.
fn has_match(alloc: Global, item: &Item, facts: &Facts) -> bool
    ensures { result ≡ has_match facts.now item.now }
{
    match &item.atom {
        Some(atom) => is_meant(alloc, facts, atom),
        None => false,
    }
}
