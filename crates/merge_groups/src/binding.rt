ghost use Rattle.std.specs.Prelude.{◌≡◌, IfOk, None, filter, map};
ghost use Rattle.std.specs.List.{AllByRecursion};
ghost use Rattle.std.specs.Option.{option_map};
ghost use Rattle.dep_atom.specs.Match.{value_matches};
ghost use Rattle.dep_atom.specs.Values.{atom_value};
ghost use Rattle.pkg_state.specs.Index.{AreNamed};
ghost use Rattle.plan_text.specs.Words.{IsBind};
ghost use Rattle.merge_groups.specs.Binds.{bind_of, bind_to, binds_of, greatest, slot_zero};
ghost use Rattle.merge_groups.specs.Binds.{written_slot};

use dep_atom::{Atom, Bind, SlotPart};
use pkg_state::{ByText, Pkg};
use plan_lives::{by_own_name, greater};
use plan_model::asking_leaves;
use pms_names::{Flags, SlotName};
use std::alloc::{AllocError, Global};

/// The packages that stand beside what comes, which are found by their names.
#[derive(Drop)]
pub(crate) struct Beside<'a> {
    packages: &'a [&'a Pkg],
    named: ByText<'a, &'a Pkg>,
    ghost are_named: { AreNamed (map (λ p. p.now) packages.now) named.lists },
}

impl<'a> Beside<'a> {
    pub(crate) fn new(alloc: Global, packages: &'a [&'a Pkg]) -> Result<Beside<'a>, AllocError>
        ensures { IfOk result (λ beside. beside.packages.now ≡ packages.now) }
    {
        let named = by_own_name(alloc, packages)?;
        Ok(Beside { packages, named })
    }
}

/// The greatest of the packages that the leaf matches.
fn greatest<'a>(packages: &[&'a Pkg], atom: &Atom, asker: &Flags) -> Option<&'a Pkg>
    ensures { option_map (λ p. p.now) result ≡ greatest None
        (filter (λ p. value_matches (atom_value atom.now) p.facts asker.now)
        (map (λ p. p.now) packages.now)) }
{
    let mut best = None;
    for &package in packages {
        if atom.matches(&package.facts, asker) {
            best = Some(greater(best, package));
        }
    }
    best
}

fn slot_zero(alloc: Global) -> Result<SlotName, AllocError>
    ensures { IfOk result (λ slot. slot ≡ slot_zero) }
{
    match SlotName::parse(alloc, "0") {
        Ok(slot) => Ok(slot),
        Err(_) => Err(AllocError),
    }
}

fn written_slot(alloc: Global, slot: &SlotPart) -> Result<SlotName, AllocError>
    ensures { IfOk result (λ name. name ≡ written_slot slot.now) }
{
    match slot {
        SlotPart::Free | SlotPart::Star | SlotPart::Equals => slot_zero(alloc),
        SlotPart::Given { slot, .. } => slot.try_clone(),
    }
}

pub(crate) fn bind_to(alloc: Global, found: Option<&Pkg>, atom: &Atom) -> Result<Bind, AllocError>
    ensures { IfOk result (λ bind. bind ≡
        bind_to (option_map (λ p. p.now) found.entry) (atom_value atom.now)) }
{
    match found {
        Some(pkg) => {
            let slot = pkg.facts.slot.try_clone()?;
            let subslot = pkg.facts.subslot.try_clone()?;
            Ok(Bind { slot, subslot })
        }
        None => {
            let slot = written_slot(alloc, &atom.slot)?;
            let subslot = written_slot(alloc, &atom.slot)?;
            Ok(Bind { slot, subslot })
        }
    }
}

fn bind_of(
    alloc: Global,
    beside: &Beside<'_>,
    asker: &Flags,
    atom: &Atom,
) -> Result<Bind, AllocError>
    ensures { IfOk result (λ bind. bind ≡ bind_of (map (λ p. p.now) beside.now.packages.now)
        asker.now (atom_value atom.now)) }
{
    let found = greatest(beside.named.get(atom.name.package.text()), atom, asker);
    bind_to(alloc, found, atom)
}

/// The bind is one in form, as its types promise.
fn bind_is_one(bind: &Bind)
    ensures { IsBind bind.now }
{
    let _ = bind.slot.text();
    let _ = bind.subslot.text();
}

/// So are all of them.
pub(crate) fn binds_are(binds: &[Bind])
    ensures { AllByRecursion IsBind binds.now }
{
    for bind in binds {
        bind_is_one(bind);
    }
}

fn each_bind(
    alloc: Global,
    beside: &Beside<'_>,
    asker: &Flags,
    leaves: &[&Atom],
) -> Result<Vec<Bind>, AllocError>
    ensures { IfOk result (λ binds. binds.items ≡
        map (bind_of (map (λ p. p.now) beside.now.packages.now) asker.now)
        (map (λ leaf. atom_value leaf.now) leaves.now)) }
{
    let mut binds = Vec::with_capacity(alloc, leaves.len())?;
    for leaf in leaves {
        binds.push(bind_of(alloc, beside, asker, leaf)?)?;
    }
    Ok(binds)
}

/// A bind for each leaf that asks.
pub(crate) fn binds_of(
    alloc: Global,
    beside: &Beside<'_>,
    pkg: &Pkg,
) -> Result<Vec<Bind>, AllocError>
    ensures { IfOk result (λ binds. binds.items ≡
        binds_of (map (λ p. p.now) beside.now.packages.now) pkg.now) }
{
    let leaves = asking_leaves(alloc, pkg)?;
    each_bind(alloc, beside, &pkg.facts.enabled, &leaves)
}
