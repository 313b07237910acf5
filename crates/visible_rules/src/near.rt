ghost use Rattle.std.specs.Prelude.{◌≡◌, ◌++◌, ◌-◌, ◌∷◌, [], IfOk, List, OnOk, drop};
ghost use Rattle.std.specs.Prelude.{filter, map, take};
ghost use Rattle.profile_lines.specs.declared.item.Item.{Item as ItemValue};
ghost use Rattle.visible_rules.specs.Near.{AreNear, is_near, woven};

use pkg_state::ByText;
use profile_lines::Item;
use std::alloc::{AllocError, Global};

/// An item with an atom, and how many items without one stand before it.
#[derive(Clone, Copy)]
pub(crate) struct Placed<'a> {
    pub(crate) before: usize,
    pub(crate) item: &'a Item,
}

/// Items without an atom, which are said of all packages, and the others under the names of their
/// atoms.
#[derive(Drop)]
pub(crate) struct Near<'a> {
    pub(crate) plain: Vec<&'a Item>,
    pub(crate) named: ByText<'a, Placed<'a>>,
}

impl<'a> Near<'a> {
    /// Those of the list, in time n log n.
    pub(crate) fn new(alloc: Global, items: &'a [Item]) -> Result<Near<'a>, AllocError>
        ensures { IfOk result (AreNear items.now) }
    {
        let mut near = Near::empty(alloc);
        for item in items {
            near.add(alloc, item)?;
        }
        Ok(near)
    }

    fn empty(alloc: Global) -> Near<'a>
        ensures { AreNear [] result }
    {
        Near {
            plain: Vec::new(alloc),
            named: ByText::new(alloc),
        }
    }

    /// Puts an item behind the others.
    fn add(&mut self, alloc: Global, item: &'a Item) -> Result<(), AllocError>
        ensures { OnOk result ((items : List ItemValue) → AreNear items self.old →
            AreNear (items ++ item.now ∷ []) self.new) }
    {
        match &item.atom {
            Some(atom) => {
                let before = self.plain.len();
                let placed = Placed { before, item };
                self.named.add(alloc, atom.name.package.text(), placed)
            }
            None => {
                self.plain.push(item)?;
                Ok(())
            }
        }
    }

    /// The items that may count for packages of this name, in the order of the list.
    pub(crate) fn of(&self, alloc: Global, name: &str) -> Result<Vec<&'a Item>, AllocError>
        ensures { IfOk result (λ v. (items : List ItemValue) → AreNear items self.now →
            map (λ i. i.now) v.items ≡ filter (is_near name.now) items) }
    {
        woven(alloc, &self.plain, self.named.get(name))
    }
}

/// The items without an atom, and each of the others where it belongs among them.
fn woven<'a>(
    alloc: Global,
    plain: &[&'a Item],
    named: &[Placed<'a>],
) -> Result<Vec<&'a Item>, AllocError>
    ensures { IfOk result (λ v. v.items ≡ woven plain.now 0 named.now) }
{
    let mut all = Vec::new(alloc);
    let mut from = 0;
    for placed in named {
        all.extend_from_slice(between(plain, from, placed.before))?;
        all.push(placed.item)?;
        from = placed.before;
    }
    all.extend_from_slice(behind(plain, from))?;
    Ok(all)
}

/// Those from this place on, up to the other one.
fn between<'b, 'a>(items: &'b [&'a Item], from: usize, to: usize) -> &'b [&'a Item]
    ensures { result.now ≡ take (to - from) (drop from items.now) }
{
    let rest = behind(items, from);
    let count = to.saturating_sub(from);
    if count < rest.len() {
        &rest[..count]
    } else {
        rest
    }
}

/// Those from this place on.
fn behind<'b, 'a>(items: &'b [&'a Item], from: usize) -> &'b [&'a Item]
    ensures { result.now ≡ drop from items.now }
{
    if from < items.len() {
        &items[from..]
    } else {
        &[]
    }
}
