ghost use Rattle.std.specs.Prelude.{◌≡◌, IfOk};
ghost use Rattle.std.specs.Option.{option_map};
ghost use Rattle.dep_atom.specs.Values.{atom_value};
ghost use Rattle.dep_tree.specs.Truth.{is_fact};
ghost use Rattle.dep_tree.specs.View.{trees_view, view};
ghost use Rattle.pms_names.specs.Flags.{has};
ghost use Rattle.pkg_state.specs.Fault.{lacking, lacking_of_all, lacking_of_first};

use dep_atom::Atom;
use dep_tree::{Node, Present, is_member};
use pms_names::Flags;
use std::alloc::AllocError;

/// The leaf that is to be named, in memory of its own.
pub fn copy_leaf(leaf: Option<&Atom>) -> Result<Option<Atom>, AllocError>
    ensures { IfOk result (λ copy. option_map atom_value copy ≡
        option_map (λ atom. atom_value atom.now) leaf.entry) }
{
    match leaf {
        Some(atom) => Ok(Some(atom.try_clone()?)),
        None => Ok(None),
    }
}

#[cycle(lacking)]
fn lacking<'a, P: Present>(
    node: &'a Node,
    present: &P,
    asker: &Flags,
    empty_holds: bool,
) -> Option<&'a Atom>
    ensures { option_map (λ atom. atom_value atom.now) result ≡
        lacking empty_holds (is_fact (P.facts present.now) asker.now) (has asker.now) (view node.now) }
{
    match node {
        Node::Leaf(atom) => Some(atom),
        Node::All(nodes) => lacking_of_all(nodes, present, asker, empty_holds),
        Node::AnyOf(nodes) => lacking_of_first(nodes, present, asker, empty_holds),
        Node::When { nodes, .. } => lacking_of_all(nodes, present, asker, empty_holds),
    }
}

/// The leaf to name of trees that should all hold: of the first that fails.
#[cycle(lacking)]
pub(crate) fn lacking_of_all<'a, P: Present>(
    nodes: &'a [Node],
    present: &P,
    asker: &Flags,
    empty_holds: bool,
) -> Option<&'a Atom>
    ensures { option_map (λ atom. atom_value atom.now) result ≡
        lacking_of_all empty_holds (is_fact (P.facts present.now) asker.now) (has asker.now)
        (trees_view nodes.now) }
{
    for node in nodes {
        if !node.holds(present, asker, empty_holds) {
            return lacking(node, present, asker, empty_holds);
        }
    }
    None
}

#[cycle(lacking)]
fn lacking_of_first<'a, P: Present>(
    nodes: &'a [Node],
    present: &P,
    asker: &Flags,
    empty_holds: bool,
) -> Option<&'a Atom>
    ensures { option_map (λ atom. atom_value atom.now) result ≡
        lacking_of_first empty_holds (is_fact (P.facts present.now) asker.now) (has asker.now)
        (trees_view nodes.now) }
{
    for node in nodes {
        if is_member(node, asker) {
            return lacking(node, present, asker, empty_holds);
        }
    }
    None
}
