ghost use Rattle.std.specs.Prelude.{◌≡◌, ◌++◌, ◌∷◌, IfOk, List, OnOk, [], map};
ghost use Rattle.std.specs.Prelude.{if◌then◌else◌};
ghost use Rattle.std.specs.List.{AllZip};
ghost use Rattle.std.specs.Option.{option_map};
ghost use Rattle.pms_names.specs.Flags.{has};
ghost use Rattle.build_pool.specs.declared.orders.Order.{Order};
ghost use Rattle.dep_atom.specs.Values.{atom_value};
ghost use Rattle.dep_tree.specs.View.{trees_view, view};
ghost use Rattle.plan_text.specs.Plans.{plan_value};
ghost use Rattle.plan_check.specs.Asks.{all_asked, asked_value};
ghost use Rattle.plan_model.specs.Asking.{AreAsked, AreAsking, IsAsked};
ghost use Rattle.plan_model.specs.Entering.{all_asking_leaves, asking_leaves, asks};

use crate::entering::asks;
use crate::finding::find;
use crate::flags::flags_on;
use crate::offers::Offers;
use build_pool::Order;
use dep_atom::Atom;
use dep_tree::Node;
use pkg_state::Pkg;
use plan_check::Asked;
use plan_text::Plan;
use pms_names::Flags;
use std::alloc::{AllocError, Global};

fn push_leaf<'a>(atom: &'a Atom, out: &mut Vec<&'a Atom>) -> Result<(), AllocError>
    ensures { OnOk result (map (λ atom. atom_value atom.now) out.new.items ≡
        map (λ atom. atom_value atom.now) out.old.items ++
        (if asks (atom_value atom.now) then atom_value atom.now ∷ [] else [])) }
{
    if asks(atom) {
        out.push(atom)?;
    }
    Ok(())
}

/// Puts the leaves that ask for a bind behind others.
#[cycle(asking)]
fn push_leaves<'a>(node: &'a Node, on: &Flags, out: &mut Vec<&'a Atom>) -> Result<(), AllocError>
    ensures { OnOk result (map (λ atom. atom_value atom.now) out.new.items ≡
        map (λ atom. atom_value atom.now) out.old.items ++
        asking_leaves (has on.now) (view node.now)) }
{
    match node {
        Node::Leaf(atom) => {
            push_leaf(atom, out)?;
            Ok(())
        }
        Node::All(nodes) => {
            push_all_leaves(nodes, on, out)?;
            Ok(())
        }
        Node::AnyOf(_) => Ok(()),
        Node::When {
            flag,
            on: wanted,
            nodes,
        } => {
            if on.has(flag) == *wanted {
                push_all_leaves(nodes, on, out)?;
            }
            Ok(())
        }
    }
}

#[cycle(asking)]
fn push_all_leaves<'a>(
    nodes: &'a [Node],
    on: &Flags,
    out: &mut Vec<&'a Atom>,
) -> Result<(), AllocError>
    ensures { OnOk result (map (λ atom. atom_value atom.now) out.new.items ≡
        map (λ atom. atom_value atom.now) out.old.items ++
        all_asking_leaves (has on.now) (trees_view nodes.now)) }
{
    for node in nodes {
        push_leaves(node, on, out)?;
    }
    Ok(())
}

/// The leaves of the package's RDEPEND that ask for a bind, with the flags that it has on.
pub fn asking_leaves<'a>(alloc: Global, pkg: &'a Pkg) -> Result<Vec<&'a Atom>, AllocError>
    ensures { IfOk result (λ leaves. map (λ atom. atom_value atom.now) leaves.items ≡
        all_asking_leaves (has pkg.now.facts.enabled) pkg.now.rdepend.groups) }
{
    let mut leaves = Vec::new(alloc);
    push_all_leaves(&pkg.rdepend.nodes, &pkg.facts.enabled, &mut leaves)?;
    Ok(leaves)
}

/// The leaves of the package that ask for a bind, where it comes with the addition.
fn leaves_of<'a>(
    alloc: Global,
    addition: &Order,
    found: Option<&'a Pkg>,
) -> Result<Vec<&'a Atom>, AllocError>
    ensures { IfOk result (λ leaves. AreAsking addition.now
        (option_map (λ p. p.now) found.entry) (map (λ atom. atom_value atom.now) leaves.items)) }
{
    let mut leaves = Vec::new(alloc);
    if let Some(pkg) = found {
        let on = flags_on(&addition.enabled, &pkg.facts.enabled)?;
        push_all_leaves(&pkg.rdepend.nodes, &on, &mut leaves)?;
    }
    Ok(leaves)
}

fn asked<'a>(
    alloc: Global,
    offers: &Offers<'a>,
    addition: &'a Order,
) -> Result<Asked<'a>, AllocError>
    ensures { IfOk result (λ r. IsAsked offers.now.offered.now addition.now
        (asked_value r)) }
{
    let found = find(addition, offers);
    let leaves = leaves_of(alloc, addition, found)?;
    Ok(Asked {
        leaves,
        binds: addition.binds.list(),
    })
}

/// Puts what the additions ask behind what others ask.
fn push_asked<'a>(
    alloc: Global,
    offers: &Offers<'a>,
    additions: &'a [Order],
    asks: &mut Vec<Asked<'a>>,
) -> Result<(), AllocError>
    ensures { OnOk result ((before : List Order) →
        AllZip (IsAsked offers.now.offered.now) before (all_asked asks.old.items) →
        AllZip (IsAsked offers.now.offered.now) (before ++ additions.now)
        (all_asked asks.new.items)) }
{
    for addition in additions {
        asks.push(asked(alloc, offers, addition)?)?;
    }
    Ok(())
}

/// What the additions of a plan's text ask of its binds, in their order.
pub fn asks_of<'a>(
    alloc: Global,
    text: &'a Plan,
    offered: &'a [Pkg],
) -> Result<Vec<Asked<'a>>, AllocError>
    ensures { IfOk result (λ asks.
        AreAsked offered.now (plan_value text.now) (all_asked asks.items)) }
{
    let offers = Offers::new(alloc, offered)?;
    let mut asks = Vec::new(alloc);
    for group in &text.groups {
        push_asked(alloc, &offers, &group.additions, &mut asks)?;
    }
    Ok(asks)
}
