ghost use Rattle.std.specs.Prelude.{◌≡◌, ◌++◌, ◌∷◌, [], ℕ, IfOk, List, OnOk, bytes_eq, map};
ghost use Rattle.std.specs.Prelude.{if◌then◌else◌};
ghost use Rattle.std.specs.List.{list_any};
ghost use Rattle.dep_atom.specs.Values.{atom_value};
ghost use Rattle.choice_tree.specs.Keys.{AreKeyed, HasCome, ends_with, has_key, lines_at, names_in};
ghost use Rattle.choice_tree.specs.Keys.{offers_key};
ghost use Rattle.choice_tree.specs.Places.{is_one};
ghost use Rattle.choice_tree.specs.declared.key.Key.TheVariants.{Leaf};
ghost use Rattle.choice_tree.specs.Views.{offer_of, universe_of};

use crate::classes::CLASSES;
use crate::key::Key;
use crate::universe::{Offer, Universe};
use dep_atom::Atom;
use pkg_state::{Class, Pkg};
use std::alloc::{AllocError, Global};
use std::collections::BTreeMap;

/// Lists of lines under texts, which are found in the logarithm of the number of texts.
#[derive(Drop)]
pub struct Keyed {
    pub lists: BTreeMap<String, Vec<usize>>,
}

impl Keyed {
    /// The lines of a universe under what their packages may have of such keys.
    pub fn new(alloc: Global, universe: &Universe, key: Key) -> Result<Keyed, AllocError>
        ensures { IfOk result
            (λ keyed. AreKeyed key (universe_of universe.now).offers keyed.lists) }
    {
        let lists = lists_of(alloc, &universe.offers, key)?;
        Ok(Keyed { lists })
    }

    /// The lines of a text, in their order.
    pub fn get(&self, text: &str) -> &[usize]
        ensures { result.now ≡ lines_at self.now.lists text.now }
    {
        listed(&self.lists, text)
    }
}

fn listed<'a>(lists: &'a BTreeMap<String, Vec<usize>>, text: &str) -> &'a [usize]
    ensures { result.now ≡ lines_at lists.now text.now }
{
    match lists.get(text) {
        Some(list) => list.as_slice(),
        None => &[],
    }
}

fn ends_with(lines: &[usize], line: usize) -> bool
    ensures { result ≡ ends_with line lines.now }
{
    match lines.last() {
        Some(last) => line == *last,
        None => false,
    }
}

/// Puts a line behind those of a text.
fn put(
    alloc: Global,
    lists: &mut BTreeMap<String, Vec<usize>>,
    text: &str,
    line: usize,
) -> Result<(), AllocError>
    ensures { OnOk result ((other : List ℕ) → lines_at lists.new other ≡
        lines_at lists.old other ++ (if bytes_eq other text.now then line ∷ [] else [])) }
{
    let mut list = match lists.remove(text) {
        Some(list) => list,
        None => Vec::new(alloc),
    };
    list.push(line)?;
    lists.insert(String::from_str(alloc, text)?, list)?;
    Ok(())
}

/// Puts a line behind those of a text, unless it is there.
fn add(
    alloc: Global,
    lists: &mut BTreeMap<String, Vec<usize>>,
    text: &str,
    line: usize,
) -> Result<(), AllocError>
    ensures { OnOk result (HasCome line (λ other. bytes_eq other text.now) lists.old lists.new) }
{
    if ends_with(listed(lists, text), line) {
        return Ok(());
    }
    put(alloc, lists, text, line)?;
    Ok(())
}

fn add_leaves(
    alloc: Global,
    lists: &mut BTreeMap<String, Vec<usize>>,
    leaves: &[&Atom],
    line: usize,
) -> Result<(), AllocError>
    ensures { OnOk result (HasCome line
        (λ text. list_any (λ a. bytes_eq text (atom_value a.now).name.«package») leaves.now)
        lists.old lists.new) }
{
    for leaf in leaves {
        add(alloc, lists, leaf.name.package.text(), line)?;
    }
    Ok(())
}

fn add_class(
    alloc: Global,
    lists: &mut BTreeMap<String, Vec<usize>>,
    owner: &Pkg,
    class: Class,
    line: usize,
) -> Result<(), AllocError>
    ensures { OnOk result
        (HasCome line (λ text. names_in text owner.now class) lists.old lists.new) }
{
    let leaves = owner.tree(class).leaves(alloc, &owner.facts.enabled)?;
    add_leaves(alloc, lists, &leaves, line)?;
    Ok(())
}

fn add_classes(
    alloc: Global,
    lists: &mut BTreeMap<String, Vec<usize>>,
    owner: &Pkg,
    line: usize,
) -> Result<(), AllocError>
    ensures { OnOk result
        (HasCome line (λ text. has_key Leaf text owner.now) lists.old lists.new) }
{
    for class in CLASSES {
        add_class(alloc, lists, owner, class, line)?;
    }
    Ok(())
}

fn add_package(
    alloc: Global,
    lists: &mut BTreeMap<String, Vec<usize>>,
    key: Key,
    owner: &Pkg,
    line: usize,
) -> Result<(), AllocError>
    ensures { OnOk result (HasCome line (λ text. has_key key text owner.now) lists.old lists.new) }
{
    match key {
        Key::Own => add(alloc, lists, owner.facts.id.name.package.text(), line),
        Key::Whole => {
            let text = owner.facts.id.print(alloc)?;
            add(alloc, lists, text.as_str(), line)
        }
        Key::Leaf => add_classes(alloc, lists, owner, line),
    }
}

fn add_variants(
    alloc: Global,
    lists: &mut BTreeMap<String, Vec<usize>>,
    key: Key,
    variants: &[Pkg],
    line: usize,
) -> Result<(), AllocError>
    ensures { OnOk result
        (HasCome line (λ text. list_any (has_key key text) variants.now) lists.old lists.new) }
{
    for owner in variants {
        add_package(alloc, lists, key, owner, line)?;
    }
    Ok(())
}

fn add_installed(
    alloc: Global,
    lists: &mut BTreeMap<String, Vec<usize>>,
    key: Key,
    offer: &Offer,
    line: usize,
) -> Result<(), AllocError>
    ensures { OnOk result (HasCome line
        (λ text. is_one (has_key key text) (offer_of offer.now).installed) lists.old lists.new) }
{
    match &offer.installed {
        Some(owner) => add_package(alloc, lists, key, owner, line),
        None => Ok(()),
    }
}

fn add_offer(
    alloc: Global,
    lists: &mut BTreeMap<String, Vec<usize>>,
    key: Key,
    offer: &Offer,
    line: usize,
) -> Result<(), AllocError>
    ensures { OnOk result
        (HasCome line (λ text. offers_key key text (offer_of offer.now)) lists.old lists.new) }
{
    add_installed(alloc, lists, key, offer, line)?;
    add_variants(alloc, lists, key, &offer.variants, line)?;
    Ok(())
}

fn lists_of(
    alloc: Global,
    offers: &[Offer],
    key: Key,
) -> Result<BTreeMap<String, Vec<usize>>, AllocError>
    ensures { IfOk result (λ lists. AreKeyed key (map offer_of offers.now) lists) }
{
    let mut lists = BTreeMap::new(alloc);
    for (line, offer) in offers.iter().enumerate() {
        add_offer(alloc, &mut lists, key, offer, line)?;
    }
    Ok(lists)
}
