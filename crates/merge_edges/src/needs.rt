ghost use Rattle.std.specs.Prelude.{◌≡◌, ◌&&◌, ◌++◌, IfOk, OnOk, map};
ghost use Rattle.dep_group.specs.Trees.{holds, is_member};
ghost use Rattle.pms_names.specs.Flags.{has};
ghost use Rattle.dep_atom.specs.Values.{atom_value};
ghost use Rattle.dep_tree.specs.Truth.{is_fact, kind};
ghost use Rattle.dep_tree.specs.View.{trees_view, view};
ghost use Rattle.choice_tree.specs.Seen.{places_of};
ghost use Rattle.merge_edges.specs.Found.{as_line, best_in, needed_lines};
ghost use Rattle.merge_edges.specs.Needs.{needed, needed_leaves, needed_of_all, needed_of_first};

use crate::stander::best_in;
use choice_tree::Around;
use dep_atom::Atom;
use dep_tree::{Node, Present, is_block, is_member};
use pkg_state::{Class, Pkg};
use pms_names::Flags;
use std::alloc::{AllocError, Global};

#[cycle(needed)]
fn push_needed<'a, P: Present>(
    node: &'a Node,
    present: &P,
    asker: &Flags,
    empty_holds: bool,
    out: &mut Vec<&'a Atom>,
) -> Result<(), AllocError>
    ensures { OnOk result (map (λ atom. atom_value atom.now) out.new.items ≡
        map (λ atom. atom_value atom.now) out.old.items ++
        needed empty_holds (is_fact (P.facts present.now) asker.now) (has asker.now)
        (view node.now)) }
{
    match node {
        Node::Leaf(atom) => {
            if !is_block(atom) {
                out.push(atom)?;
            }
            Ok(())
        }
        Node::All(nodes) => {
            push_of_all(nodes, present, asker, empty_holds, out)?;
            Ok(())
        }
        Node::AnyOf(nodes) => {
            push_of_first(nodes, present, asker, empty_holds, out)?;
            Ok(())
        }
        Node::When { flag, on, nodes } => {
            if asker.has(flag) == *on {
                push_of_all(nodes, present, asker, empty_holds, out)?;
            }
            Ok(())
        }
    }
}

#[cycle(needed)]
fn push_of_all<'a, P: Present>(
    nodes: &'a [Node],
    present: &P,
    asker: &Flags,
    empty_holds: bool,
    out: &mut Vec<&'a Atom>,
) -> Result<(), AllocError>
    ensures { OnOk result (map (λ atom. atom_value atom.now) out.new.items ≡
        map (λ atom. atom_value atom.now) out.old.items ++
        needed_of_all empty_holds (is_fact (P.facts present.now) asker.now) (has asker.now)
        (trees_view nodes.now)) }
{
    for node in nodes {
        push_needed(node, present, asker, empty_holds, out)?;
    }
    Ok(())
}

/// Whether it is a member of the group that it stands in, and holds.
fn is_true_member<P: Present>(node: &Node, present: &P, asker: &Flags, empty_holds: bool) -> bool
    ensures { result ≡ (is_member kind (has asker.now) (view node.now)
        && holds empty_holds kind (is_fact (P.facts present.now) asker.now) (has asker.now)
        (view node.now)) }
{
    is_member(node, asker) && node.holds(present, asker, empty_holds)
}

/// Those of the first member that holds.
#[cycle(needed)]
fn push_of_first<'a, P: Present>(
    nodes: &'a [Node],
    present: &P,
    asker: &Flags,
    empty_holds: bool,
    out: &mut Vec<&'a Atom>,
) -> Result<(), AllocError>
    ensures { OnOk result (map (λ atom. atom_value atom.now) out.new.items ≡
        map (λ atom. atom_value atom.now) out.old.items ++
        needed_of_first empty_holds (is_fact (P.facts present.now) asker.now) (has asker.now)
        (trees_view nodes.now)) }
{
    for node in nodes {
        if is_true_member(node, present, asker, empty_holds) {
            push_needed(node, present, asker, empty_holds, out)?;
            return Ok(());
        }
    }
    Ok(())
}

/// The leaves that the package needs in this class, among those that are there.
fn needed_leaves<'a, P: Present>(
    alloc: Global,
    present: &P,
    class: Class,
    pkg: &'a Pkg,
) -> Result<Vec<&'a Atom>, AllocError>
    ensures { IfOk result (λ v. map (λ atom. atom_value atom.now) v.items ≡
        needed_leaves (P.facts present.now) class pkg.now) }
{
    let mut leaves = Vec::new(alloc);
    let tree = pkg.tree(class);
    push_of_all(
        &tree.nodes,
        present,
        &pkg.facts.enabled,
        tree.empty_holds,
        &mut leaves,
    )?;
    Ok(leaves)
}

fn push_line(
    around: &Around<'_, '_>,
    leaf: &Atom,
    asker: &Flags,
    out: &mut Vec<usize>,
) -> Result<(), AllocError>
    ensures { OnOk result (out.new.items ≡ out.old.items ++
        as_line (best_in (places_of around.now.places.now) (atom_value leaf.now) asker.now)) }
{
    if let Some(found) = best_in(around, leaf, asker) {
        out.push(found.line)?;
    }
    Ok(())
}

/// The lines that the package needs in this class: of each leaf that counts the one with the
/// greatest version that it matches.
pub(crate) fn needed_lines(
    alloc: Global,
    around: &Around<'_, '_>,
    class: Class,
    pkg: &Pkg,
) -> Result<Vec<usize>, AllocError>
    ensures { IfOk result (λ v. v.items ≡
        needed_lines (places_of around.now.places.now) class pkg.now) }
{
    let leaves = needed_leaves(alloc, around, class, pkg)?;
    let mut lines = Vec::new(alloc);
    for &leaf in &leaves {
        push_line(around, leaf, &pkg.facts.enabled, &mut lines)?;
    }
    Ok(lines)
}
