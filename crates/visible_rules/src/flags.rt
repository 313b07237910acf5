ghost use Rattle.std.specs.Prelude.{◌≡◌, ℕ, IfOk, List, OnOk, map};
ghost use Rattle.pms_names.specs.Flags.{has};
ghost use Rattle.use_flags.specs.Changes.{has_after};
ghost use Rattle.visible_rules.specs.Items.{changes_for, counts_for, is_turned_on};

use crate::meaning::is_meant;
use crate::near::Near;
use dep_atom::Facts;
use pms_names::Flags;
use profile_lines::Item;
use std::alloc::{AllocError, Global};
use std::marker::Model;
use use_flags::{Change, apply_one};

/// Items of flags, which are found by the names of their atoms. Contracts see their list.
#[derive(Drop)]
pub struct FlagItems<'a> {
    items: &'a [Item],
    near: Near<'a>,
}

impl<'a> Model for FlagItems<'a> {
    ghost use Rattle.std.specs.Prelude.{List};
    ghost use Rattle.profile_lines.specs.declared.item.Item.{Item};
    ghost use Rattle.visible_rules.specs.Near.{AreNear};

    ghost Value = { List Item };

    ghost view = { λ f. f.items.now };

    ghost invariant = { λ f. AreNear f.items.now f.near };
}

impl<'a> FlagItems<'a> {
    /// The items, put in order by their names once.
    pub fn new(alloc: Global, items: &'a [Item]) -> Result<FlagItems<'a>, AllocError>
        ensures { IfOk result (λ f. f ≡ items.now) }
    {
        let near = Near::new(alloc, items)?;
        Ok(FlagItems { items, near })
    }

    /// The changes of the package's flags, item by item in the order of the list: those of the items
    /// whose atom matches it, or that have none.
    pub fn changes_for<'b>(
        &'b self,
        alloc: Global,
        facts: &Facts,
    ) -> Result<Vec<&'b [Change]>, AllocError>
        ensures { IfOk result (λ v. map (λ c. c.now) v.items ≡ changes_for facts.now self.now) }
    {
        let near = self.near.of(alloc, facts.id.name.package.text())?;
        changes_among(alloc, &near, facts)
    }

    /// The flags that these changes turn on, where none is on before: those that are forced, or those
    /// that are masked.
    pub fn turned_on(&self, alloc: Global, facts: &Facts) -> Result<Flags, AllocError>
        ensures { IfOk result (λ set. (flag : List ℕ) →
            has set flag ≡ is_turned_on (changes_for facts.now self.now) flag) }
    {
        let changes = self.changes_for(alloc, facts)?;
        turned_on(alloc, &changes)
    }
}

/// The changes of those of the items that count for the package.
fn changes_among<'a>(
    alloc: Global,
    items: &[&'a Item],
    facts: &Facts,
) -> Result<Vec<&'a [Change]>, AllocError>
    ensures { IfOk result (λ v. map (λ c. c.now) v.items ≡
        changes_for facts.now (map (λ i. i.now) items.now)) }
{
    let mut changes = Vec::new(alloc);
    for item in items {
        if counts_for(alloc, item, facts) {
            changes.push(item.changes.as_slice())?;
        }
    }
    Ok(changes)
}

/// The flags that the changes turn on, where none is on before.
fn turned_on(alloc: Global, changes: &[&[Change]]) -> Result<Flags, AllocError>
    ensures { IfOk result (λ set. (flag : List ℕ) →
        has set flag ≡ is_turned_on (map (λ c. c.now) changes.now) flag) }
{
    let mut flags = Flags::new(alloc);
    for change in changes {
        change_all(&mut flags, change)?;
    }
    Ok(flags)
}

/// Whether the item is said of the package.
fn counts_for(alloc: Global, item: &Item, facts: &Facts) -> bool
    ensures { result ≡ counts_for facts.now item.now }
{
    match &item.atom {
        Some(atom) => is_meant(alloc, facts, atom),
        None => true,
    }
}

fn change_all(flags: &mut Flags, changes: &[Change]) -> Result<(), AllocError>
    ensures { OnOk result ((flag : List ℕ) →
        has flags.new flag ≡ has_after changes.now flag (has flags.old flag)) }
{
    for change in changes {
        apply_one(flags, change)?;
    }
    Ok(())
}
