ghost use Rattle.std.specs.Prelude.{◌≡◌, [], IfOk, Some, if◌then◌else◌};
ghost use Rattle.pms_names.specs.Flags.{has};
ghost use Rattle.dep_atom.specs.Values.{atom_value};
ghost use Rattle.dep_atom.specs.declared.slot.SlotPart.TheVariants.{Given};
ghost use Rattle.dep_group.specs.Trees.{leaf};
ghost use Rattle.dep_tree.specs.View.{trees, trees_view, view};
ghost use Rattle.vdb_law.specs.Fields.{without_equals};
ghost use Rattle.plan_model.specs.Entering.{all_entered, all_left, asks, bound_slot, entered};
ghost use Rattle.plan_model.specs.Entering.{entered_leaf, entered_with, is_open, left, left_by};

use dep_atom::{Atom, Bind, SlotPart};
use dep_tree::{DepTree, Node, is_block};
use pms_names::{Flags, SlotName};
use std::alloc::{AllocError, Global};

fn is_open(slot: &SlotPart) -> bool
    ensures { result ≡ is_open slot.now }
{
    match slot {
        SlotPart::Free | SlotPart::Star => false,
        SlotPart::Equals => true,
        SlotPart::Given {
            subslot,
            equals,
            ..
        } => subslot.is_none() && *equals,
    }
}

pub(crate) fn asks(atom: &Atom) -> bool
    ensures { result ≡ asks (atom_value atom.now) }
{
    !is_block(atom) && is_open(&atom.slot)
}

fn given(slot: &SlotName, subslot: &SlotName, equals: bool) -> Result<SlotPart, AllocError>
    ensures { IfOk result (λ s. s ≡ Given slot.now (Some subslot.now) equals) }
{
    let slot = slot.try_clone()?;
    let subslot = subslot.try_clone()?;
    Ok(SlotPart::Given {
        slot,
        subslot: Some(subslot),
        equals,
    })
}

/// A slot part without its operator, if that names no subslot.
fn without_equals(slot: &SlotPart) -> Result<SlotPart, AllocError>
    ensures { IfOk result (λ s. s ≡ without_equals slot.now) }
{
    match slot {
        SlotPart::Free | SlotPart::Equals => Ok(SlotPart::Free),
        SlotPart::Star => Ok(SlotPart::Star),
        SlotPart::Given {
            slot,
            subslot: None,
            ..
        } => Ok(SlotPart::Given {
            slot: slot.try_clone()?,
            subslot: None,
            equals: false,
        }),
        SlotPart::Given {
            slot,
            subslot: Some(subslot),
            equals,
        } => given(slot, subslot, *equals),
    }
}

/// A slot part whose operator is bound.
fn bound_slot(slot: &SlotPart, to: &Bind) -> Result<SlotPart, AllocError>
    ensures { IfOk result (λ s. s ≡ bound_slot slot.now to.now) }
{
    match slot {
        SlotPart::Free => Ok(SlotPart::Free),
        SlotPart::Star => Ok(SlotPart::Star),
        SlotPart::Equals => given(&to.slot, &to.subslot, true),
        SlotPart::Given {
            slot,
            subslot: None,
            equals,
        } => given(slot, &to.subslot, *equals),
        SlotPart::Given {
            slot,
            subslot: Some(subslot),
            equals,
        } => given(slot, subslot, *equals),
    }
}

fn entered_leaf<'b>(atom: &Atom, binds: &'b [Bind]) -> Result<(Node, &'b [Bind]), AllocError>
    ensures leaf { IfOk result (λ r.
        view r.0 ≡ leaf (entered_leaf binds.now (atom_value atom.now))) }
    ensures left { IfOk result (λ r. r.1.now ≡ left_by binds.now (atom_value atom.now)) }
{
    if let [bind, rest @ ..] = binds {
        if asks(atom) {
            let slot = bound_slot(&atom.slot, bind)?;
            return Ok((Node::Leaf(atom.with_slot(slot)?), rest));
        }
    }
    let slot = without_equals(&atom.slot)?;
    Ok((Node::Leaf(atom.with_slot(slot)?), binds))
}

/// The binds that come into a group, if it lets them in.
fn inside(lets_in: bool, binds: &[Bind]) -> &[Bind]
    ensures { result.now ≡ if lets_in then binds.now else [] }
{
    if lets_in {
        return binds;
    }
    &binds[..0]
}

/// The binds behind a group, which are those that it leaves, if it lets them in.
fn behind<'b>(lets_in: bool, rest: &'b [Bind], binds: &'b [Bind]) -> &'b [Bind]
    ensures { result.now ≡ if lets_in then rest.now else binds.now }
{
    if lets_in {
        return rest;
    }
    binds
}

/// A dependency as it enters with the binds, and those that it leaves.
#[cycle(entered)]
fn entered<'b>(
    alloc: Global,
    node: &Node,
    on: &Flags,
    binds: &'b [Bind],
) -> Result<(Node, &'b [Bind]), AllocError>
    ensures node { IfOk result (λ r.
        view r.0 ≡ entered (has on.now) binds.now (view node.now)) }
    ensures left { IfOk result (λ r. r.1.now ≡ left (has on.now) binds.now (view node.now)) }
{
    match node {
        Node::Leaf(atom) => entered_leaf(atom, binds),
        Node::All(nodes) => {
            let (nodes, rest) = entered_all(alloc, nodes, on, binds)?;
            Ok((Node::All(nodes), rest))
        }
        Node::AnyOf(nodes) => {
            let (nodes, _) = entered_all(alloc, nodes, on, inside(false, binds))?;
            Ok((Node::AnyOf(nodes), binds))
        }
        Node::When {
            flag,
            on: wanted,
            nodes,
        } => {
            let lets_in = on.has(flag) == *wanted;
            let (nodes, rest) = entered_all(alloc, nodes, on, inside(lets_in, binds))?;
            let copy = Node::When {
                flag: flag.try_clone()?,
                on: *wanted,
                nodes,
            };
            Ok((copy, behind(lets_in, rest, binds)))
        }
    }
}

#[cycle(entered)]
fn entered_all<'b>(
    alloc: Global,
    nodes: &[Node],
    on: &Flags,
    binds: &'b [Bind],
) -> Result<(Vec<Node>, &'b [Bind]), AllocError>
    ensures nodes { IfOk result (λ r. trees_view r.0.items ≡
        all_entered (has on.now) binds.now (trees_view nodes.now)) }
    ensures left { IfOk result (λ r.
        r.1.now ≡ all_left (has on.now) binds.now (trees_view nodes.now)) }
{
    let mut copies = Vec::with_capacity(alloc, nodes.len())?;
    let mut rest = binds;
    for node in nodes {
        let (copy, behind) = entered(alloc, node, on, rest)?;
        copies.push(copy)?;
        rest = behind;
    }
    Ok((copies, rest))
}

/// Dependencies as they enter with the binds.
pub(crate) fn entered_tree(
    alloc: Global,
    tree: &DepTree,
    on: &Flags,
    binds: &[Bind],
) -> Result<DepTree, AllocError>
    ensures { IfOk result (λ t.
        trees t ≡ entered_with (has on.now) binds.now (trees tree.now)) }
{
    let (nodes, _) = entered_all(alloc, &tree.nodes, on, binds)?;
    Ok(DepTree {
        nodes,
        empty_holds: tree.empty_holds,
    })
}

/// Dependencies as they enter without binds.
pub(crate) fn closed_tree(alloc: Global, tree: &DepTree, on: &Flags) -> Result<DepTree, AllocError>
    ensures { IfOk result (λ t. trees t ≡ entered_with (has on.now) [] (trees tree.now)) }
{
    entered_tree(alloc, tree, on, &[])
}
