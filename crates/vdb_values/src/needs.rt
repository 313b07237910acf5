ghost use Rattle.std.specs.Prelude.{◌≡◌, IfErr, IfOk, MatchResult};
ghost use Rattle.vdb_law.specs.Fields.{all_bound, bound_alone, bound_of, tree_bound};
ghost use Rattle.vdb_law.specs.Fields.{without_equals};
ghost use Rattle.dep_atom.specs.Values.{atom_value};
ghost use Rattle.dep_tree.specs.Faults.{IsMemory};
ghost use Rattle.dep_tree.specs.Texts.{Dependencies, Writes};
ghost use Rattle.dep_tree.specs.View.{trees, trees_view, view};
ghost use Rattle.vdb_values.specs.Values.{IsFirstFault, Needs};

use dep_atom::{Atom, SlotPart};
use dep_tree::{DepTree, Node, TreeTextFault};
use std::alloc::{AllocError, Global};

/// The dependencies of a class, as a record has them: an equals operator that is bound to no subslot
/// is read as absent. Whether an any-of group without members holds is not in the text.
pub fn read_needs(alloc: Global, text: &str, empty_holds: bool) -> Result<DepTree, TreeTextFault>
    ensures found { IfOk result (λ t. Needs empty_holds text.now (trees t)) }
    ensures only { (x : Dependencies) → Writes empty_holds text.now x →
        MatchResult result (λ t. trees t ≡ bound_of x) IsMemory }
    ensures fault { IfErr result (IsFirstFault text.now) }
{
    match DepTree::parse(alloc, text, empty_holds) {
        Ok(tree) => bound(alloc, &tree),
        Err(fault) => Err(fault),
    }
}

fn bound(alloc: Global, tree: &DepTree) -> Result<DepTree, TreeTextFault>
    ensures { MatchResult result (λ t. trees t ≡ bound_of (trees tree.now)) IsMemory }
{
    let empty_holds = tree.empty_holds;
    match bound_all(alloc, &tree.nodes) {
        Ok(nodes) => Ok(DepTree { nodes, empty_holds }),
        Err(_) => Err(TreeTextFault::Memory),
    }
}

#[cycle(bound)]
fn bound_all(alloc: Global, nodes: &[Node]) -> Result<Vec<Node>, AllocError>
    ensures { IfOk result (λ copies. trees_view copies.items ≡ all_bound (trees_view nodes.now)) }
{
    let mut copies = Vec::with_capacity(alloc, nodes.len())?;
    for node in nodes {
        copies.push(bound_node(alloc, node)?)?;
    }
    Ok(copies)
}

#[cycle(bound)]
fn bound_node(alloc: Global, node: &Node) -> Result<Node, AllocError>
    ensures { IfOk result (λ copy. view copy ≡ tree_bound (view node.now)) }
{
    match node {
        Node::Leaf(atom) => Ok(Node::Leaf(bound_atom(atom)?)),
        Node::All(nodes) => Ok(Node::All(bound_all(alloc, nodes)?)),
        Node::AnyOf(nodes) => Ok(Node::AnyOf(bound_all(alloc, nodes)?)),
        Node::When { flag, on, nodes } => Ok(Node::When {
            flag: flag.try_clone()?,
            on: *on,
            nodes: bound_all(alloc, nodes)?,
        }),
    }
}

fn bound_atom(atom: &Atom) -> Result<Atom, AllocError>
    ensures { IfOk result (λ copy. atom_value copy ≡ bound_alone (atom_value atom.now)) }
{
    let copy = atom.try_clone()?;
    let Atom {
        block,
        op,
        name,
        version,
        star,
        slot,
        uses,
    } = copy;
    Ok(Atom {
        block,
        op,
        name,
        version,
        star,
        slot: without_equals(slot),
        uses,
    })
}

fn without_equals(slot: SlotPart) -> SlotPart
    ensures { result ≡ without_equals slot }
{
    match slot {
        SlotPart::Free | SlotPart::Equals => SlotPart::Free,
        SlotPart::Star => SlotPart::Star,
        SlotPart::Given {
            slot,
            subslot,
            equals,
        } => {
            let equals = subslot.is_some() && equals;
            SlotPart::Given {
                slot,
                subslot,
                equals,
            }
        }
    }
}
