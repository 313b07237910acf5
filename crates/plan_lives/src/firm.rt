ghost use Rattle.std.specs.Prelude.{◌≡◌, ◌⊎◌, ◌↔◌, ◌∷◌, IfOk, IsTrue, [], false, length, map};
ghost use Rattle.std.specs.Option.{option_map};
ghost use Rattle.dep_atom.specs.Values.{atom_value};
ghost use Rattle.dep_tree.specs.Grammar.{is_block};
ghost use Rattle.dep_tree.specs.View.{trees, trees_view, view};
ghost use Rattle.pms_names.specs.Flags.{has};
ghost use Rattle.plan_law.specs.Firm.{AreFirm, HasFirm, HoldsEmpty, IsFirm, direct};
ghost use Rattle.plan_lives.specs.Gathered.{Chained};
ghost use Rattle.plan_lives.specs.Index.{IsIndex, plan_of};
ghost use Rattle.plan_lives.specs.Leaves.{IsLeaf, IsLeafOfAll, IsLeafOfAny};
ghost use Rattle.plan_lives.specs.Stretches.{IsStretchWithin, stretch_value};

use crate::chains::is_chained;
use crate::index::Index;
use crate::stretch::Stretch;
use dep_atom::Atom;
use dep_tree::{DepTree, Node, has_member, is_block, is_member};
use pms_names::Flags;
use std::alloc::{AllocError, Global};

/// The atoms that stand directly in a group.
fn direct<'a>(alloc: Global, nodes: &'a [Node]) -> Result<Vec<&'a Atom>, AllocError>
    ensures { IfOk result (λ atoms. map (λ atom. atom_value atom.now) atoms.items ≡
        direct (trees_view nodes.now)) }
{
    let mut atoms = Vec::new(alloc);
    for node in nodes {
        if let Node::Leaf(atom) = node {
            atoms.push(atom)?;
        }
    }
    Ok(atoms)
}

/// Whether what the atom asks is there all through the stretch. A block asks nothing here.
fn is_leaf_firm(
    alloc: Global,
    atom: &Atom,
    index: &Index<'_>,
    stretch: &Stretch,
    asker: &Flags,
) -> Result<bool, AllocError>
    requires is { IsIndex index.now }
    requires within { IsStretchWithin (length (plan_of index.now)) (stretch_value stretch.now) }
    ensures { IfOk result (λ firm. IsTrue firm ↔
        (is_block (atom_value atom.now) ≡ false →
        Chained index.now stretch.now asker.now (atom_value atom.now ∷ []))) }
{
    if is_block(atom) {
        return Ok(true);
    }
    is_chained(alloc, index, stretch, asker, &[atom])
}

/// Whether these are a group without members, where such groups hold.
fn holds_empty(nodes: &[Node], asker: &Flags, empty_holds: bool) -> bool
    ensures { IsTrue result ↔ HoldsEmpty empty_holds (has asker.now) (trees_view nodes.now) }
{
    empty_holds && !has_member(nodes, asker)
}

/// Whether one of the members is there all through the stretch, or the atoms among them together,
/// or whether there is none and such groups hold.
#[cycle(firm)]
fn is_any_firm(
    alloc: Global,
    nodes: &[Node],
    index: &Index<'_>,
    stretch: &Stretch,
    asker: &Flags,
    empty_holds: bool,
) -> Result<bool, AllocError>
    requires is { IsIndex index.now }
    requires within { IsStretchWithin (length (plan_of index.now)) (stretch_value stretch.now) }
    ensures { IfOk result (λ firm. IsTrue firm ↔
        (HasFirm empty_holds (Chained index.now stretch.now asker.now) (has asker.now)
        (trees_view nodes.now)
        ⊎ (Chained index.now stretch.now asker.now (direct (trees_view nodes.now))
        ⊎ HoldsEmpty empty_holds (has asker.now) (trees_view nodes.now)))) }
{
    if holds_empty(nodes, asker, empty_holds) {
        return Ok(true);
    }
    if has_firm(alloc, nodes, index, stretch, asker, empty_holds)? {
        return Ok(true);
    }
    let atoms = direct(alloc, nodes)?;
    is_chained(alloc, index, stretch, asker, &atoms)
}

/// Whether what the tree asks is there all through the stretch.
#[cycle(firm)]
fn is_firm(
    alloc: Global,
    node: &Node,
    index: &Index<'_>,
    stretch: &Stretch,
    asker: &Flags,
    empty_holds: bool,
) -> Result<bool, AllocError>
    requires is { IsIndex index.now }
    requires within { IsStretchWithin (length (plan_of index.now)) (stretch_value stretch.now) }
    ensures { IfOk result (λ firm. IsTrue firm ↔
        IsFirm empty_holds (Chained index.now stretch.now asker.now) (has asker.now)
        (view node.now)) }
{
    match node {
        Node::Leaf(atom) => is_leaf_firm(alloc, atom, index, stretch, asker),
        Node::All(nodes) => all_firm(alloc, nodes, index, stretch, asker, empty_holds),
        Node::AnyOf(nodes) => is_any_firm(alloc, nodes, index, stretch, asker, empty_holds),
        Node::When { flag, on, nodes } => {
            if asker.has(flag) == *on {
                all_firm(alloc, nodes, index, stretch, asker, empty_holds)
            } else {
                Ok(true)
            }
        }
    }
}

/// Whether what each of the trees asks is there all through the stretch.
#[cycle(firm)]
fn all_firm(
    alloc: Global,
    nodes: &[Node],
    index: &Index<'_>,
    stretch: &Stretch,
    asker: &Flags,
    empty_holds: bool,
) -> Result<bool, AllocError>
    requires is { IsIndex index.now }
    requires within { IsStretchWithin (length (plan_of index.now)) (stretch_value stretch.now) }
    ensures { IfOk result (λ firm. IsTrue firm ↔
        AreFirm empty_holds (Chained index.now stretch.now asker.now) (has asker.now)
        (trees_view nodes.now)) }
{
    for node in nodes {
        if !is_firm(alloc, node, index, stretch, asker, empty_holds)? {
            return Ok(false);
        }
    }
    Ok(true)
}

#[cycle(firm)]
fn has_firm(
    alloc: Global,
    nodes: &[Node],
    index: &Index<'_>,
    stretch: &Stretch,
    asker: &Flags,
    empty_holds: bool,
) -> Result<bool, AllocError>
    requires is { IsIndex index.now }
    requires within { IsStretchWithin (length (plan_of index.now)) (stretch_value stretch.now) }
    ensures { IfOk result (λ firm. IsTrue firm ↔
        HasFirm empty_holds (Chained index.now stretch.now asker.now) (has asker.now)
        (trees_view nodes.now)) }
{
    for node in nodes {
        if is_member(node, asker) && is_firm(alloc, node, index, stretch, asker, empty_holds)? {
            return Ok(true);
        }
    }
    Ok(false)
}

/// Whether what the dependencies ask is there all through the stretch.
pub fn are_firm(
    alloc: Global,
    tree: &DepTree,
    index: &Index<'_>,
    stretch: &Stretch,
    asker: &Flags,
) -> Result<bool, AllocError>
    requires is { IsIndex index.now }
    requires within { IsStretchWithin (length (plan_of index.now)) (stretch_value stretch.now) }
    ensures { IfOk result (λ firm. IsTrue firm ↔
        AreFirm (trees tree.now).empty_holds (Chained index.now stretch.now asker.now)
        (has asker.now) (trees tree.now).groups) }
{
    all_firm(alloc, &tree.nodes, index, stretch, asker, tree.empty_holds)
}

#[cycle(leaf)]
fn leaf<'a>(
    alloc: Global,
    node: &'a Node,
    index: &Index<'_>,
    stretch: &Stretch,
    asker: &Flags,
    empty_holds: bool,
) -> Result<Option<&'a Atom>, AllocError>
    requires is { IsIndex index.now }
    requires within { IsStretchWithin (length (plan_of index.now)) (stretch_value stretch.now) }
    ensures { IfOk result (λ found.
        IsLeaf (λ t.
        ¬ IsFirm empty_holds (Chained index.now stretch.now asker.now) (has asker.now) t)
        (has asker.now) (view node.now)
        (option_map (λ atom. atom_value atom.now) found)) }
{
    match node {
        Node::Leaf(atom) => Ok(Some(atom)),
        Node::All(nodes) => leaf_of_nodes(alloc, nodes, index, stretch, asker, empty_holds),
        Node::AnyOf(nodes) => leaf_of_any(alloc, nodes, index, stretch, asker, empty_holds),
        Node::When { nodes, .. } => leaf_of_nodes(alloc, nodes, index, stretch, asker, empty_holds),
    }
}

#[cycle(leaf)]
fn leaf_of_nodes<'a>(
    alloc: Global,
    nodes: &'a [Node],
    index: &Index<'_>,
    stretch: &Stretch,
    asker: &Flags,
    empty_holds: bool,
) -> Result<Option<&'a Atom>, AllocError>
    requires is { IsIndex index.now }
    requires within { IsStretchWithin (length (plan_of index.now)) (stretch_value stretch.now) }
    ensures { IfOk result (λ found.
        IsLeafOfAll (λ t.
        ¬ IsFirm empty_holds (Chained index.now stretch.now asker.now) (has asker.now) t)
        (has asker.now) (trees_view nodes.now)
        (option_map (λ atom. atom_value atom.now) found)) }
{
    for node in nodes {
        if !is_firm(alloc, node, index, stretch, asker, empty_holds)? {
            return leaf(alloc, node, index, stretch, asker, empty_holds);
        }
    }
    Ok(None)
}

#[cycle(leaf)]
fn leaf_of_any<'a>(
    alloc: Global,
    nodes: &'a [Node],
    index: &Index<'_>,
    stretch: &Stretch,
    asker: &Flags,
    empty_holds: bool,
) -> Result<Option<&'a Atom>, AllocError>
    requires is { IsIndex index.now }
    requires within { IsStretchWithin (length (plan_of index.now)) (stretch_value stretch.now) }
    ensures { IfOk result (λ found.
        IsLeafOfAny (λ t.
        ¬ IsFirm empty_holds (Chained index.now stretch.now asker.now) (has asker.now) t)
        (has asker.now) (trees_view nodes.now)
        (option_map (λ atom. atom_value atom.now) found)) }
{
    for node in nodes {
        if is_member(node, asker) {
            return leaf(alloc, node, index, stretch, asker, empty_holds);
        }
    }
    Ok(None)
}

/// The leaf to name of dependencies that should all be there.
pub fn leaf_of_all<'a>(
    alloc: Global,
    tree: &'a DepTree,
    index: &Index<'_>,
    stretch: &Stretch,
    asker: &Flags,
) -> Result<Option<&'a Atom>, AllocError>
    requires is { IsIndex index.now }
    requires within { IsStretchWithin (length (plan_of index.now)) (stretch_value stretch.now) }
    ensures { IfOk result (λ found.
        IsLeafOfAll (λ t. ¬ IsFirm (trees tree.now).empty_holds
        (Chained index.now stretch.now asker.now) (has asker.now) t)
        (has asker.now) (trees tree.now).groups
        (option_map (λ atom. atom_value atom.now) found)) }
{
    leaf_of_nodes(alloc, &tree.nodes, index, stretch, asker, tree.empty_holds)
}
