ghost use Rattle.std.specs.Prelude.{◌≡◌, ◌++◌, IfOk, OnOk, map};
ghost use Rattle.dep_atom.specs.Values.{atom_value};
ghost use Rattle.dep_tree.specs.Truth.{is_fact, kind};
ghost use Rattle.dep_tree.specs.View.{trees_view, view};
ghost use Rattle.pms_names.specs.Flags.{has};
ghost use Rattle.choice_law.specs.Blame.{blamed, blamed_in, each_blamed, first_blamed};

use dep_atom::Atom;
use dep_tree::{Node, Present, is_member};
use pkg_state::{Class, Pkg};
use pms_names::Flags;
use std::alloc::{AllocError, Global};

#[cycle(blame)]
fn push_blamed<'a, P: Present>(
    node: &'a Node,
    present: &P,
    asker: &Flags,
    empty_holds: bool,
    out: &mut Vec<&'a Atom>,
) -> Result<(), AllocError>
    ensures { OnOk result (map (λ atom. atom_value atom.now) out.new.items ≡
        map (λ atom. atom_value atom.now) out.old.items ++
        blamed empty_holds kind (is_fact (P.facts present.now) asker.now) (has asker.now)
        (view node.now)) }
{
    match node {
        Node::Leaf(atom) => {
            out.push(atom)?;
            Ok(())
        }
        Node::All(nodes) => {
            push_first_blamed(nodes, present, asker, empty_holds, out)?;
            Ok(())
        }
        Node::AnyOf(nodes) => {
            push_each_blamed(nodes, present, asker, empty_holds, out)?;
            Ok(())
        }
        Node::When { nodes, .. } => {
            push_first_blamed(nodes, present, asker, empty_holds, out)?;
            Ok(())
        }
    }
}

#[cycle(blame)]
fn push_first_blamed<'a, P: Present>(
    nodes: &'a [Node],
    present: &P,
    asker: &Flags,
    empty_holds: bool,
    out: &mut Vec<&'a Atom>,
) -> Result<(), AllocError>
    ensures { OnOk result (map (λ atom. atom_value atom.now) out.new.items ≡
        map (λ atom. atom_value atom.now) out.old.items ++
        first_blamed empty_holds kind (is_fact (P.facts present.now) asker.now) (has asker.now)
        (trees_view nodes.now)) }
{
    for node in nodes {
        if !node.holds(present, asker, empty_holds) {
            push_blamed(node, present, asker, empty_holds, out)?;
            return Ok(());
        }
    }
    Ok(())
}

#[cycle(blame)]
fn push_each_blamed<'a, P: Present>(
    nodes: &'a [Node],
    present: &P,
    asker: &Flags,
    empty_holds: bool,
    out: &mut Vec<&'a Atom>,
) -> Result<(), AllocError>
    ensures { OnOk result (map (λ atom. atom_value atom.now) out.new.items ≡
        map (λ atom. atom_value atom.now) out.old.items ++
        each_blamed empty_holds kind (is_fact (P.facts present.now) asker.now) (has asker.now)
        (trees_view nodes.now)) }
{
    for node in nodes {
        if is_member(node, asker) {
            push_blamed(node, present, asker, empty_holds, out)?;
        }
    }
    Ok(())
}

/// The leaves to blame where what the package needs in this class isn't there, in the order in
/// which they are written.
pub(crate) fn blamed_of<'a, P: Present>(
    alloc: Global,
    owner: &'a Pkg,
    class: Class,
    present: &P,
) -> Result<Vec<&'a Atom>, AllocError>
    ensures { IfOk result (λ v. map (λ atom. atom_value atom.now) v.items ≡
        blamed_in (P.facts present.now) class owner.now) }
{
    let tree = owner.tree(class);
    let asker = &owner.facts.enabled;
    let mut out = Vec::new(alloc);
    push_first_blamed(&tree.nodes, present, asker, tree.empty_holds, &mut out)?;
    Ok(out)
}
