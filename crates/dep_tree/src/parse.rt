ghost use Rattle.std.specs.Prelude.{◌≡◌, IfErr, IfOk, MatchResult};
ghost use Rattle.dep_group.specs.Maps.{opener_map};
ghost use Rattle.dep_group.specs.Trees.{group};
ghost use Rattle.dep_tree.specs.Faults.{FirstFault, IsMemory, named};
ghost use Rattle.dep_tree.specs.Texts.{AtomTrees, WritesAtoms};
ghost use Rattle.dep_tree.specs.View.{kind_of, trees_view, view};

use crate::fault::TreeTextFault;
use crate::tree::{Node, is_block};
use dep_atom::{Atom, AtomFault};
use dep_group::{GroupFault, Node as GroupNode, Opener, read_text};
use pms_names::Flag;
use std::alloc::{AllocError, Global};

/// What stands before the parenthesis of a group. One with nothing before it wants all its members.
#[derive(Debug, Drop)]
pub(crate) enum DepOpener {
    AnyOf,
    When { flag: Flag, on: bool },
}

/// The dependencies that the text is.
pub fn read(alloc: Global, text: &str) -> Result<Vec<Node>, TreeTextFault>
    ensures found { IfOk result (λ nodes. WritesAtoms text.now (trees_view nodes.items)) }
    ensures only { (ts : AtomTrees) → WritesAtoms text.now ts →
        MatchResult result (λ nodes. trees_view nodes.items ≡ ts) IsMemory }
    ensures fault { IfErr result (FirstFault text.now) }
{
    match read_text::<DepOpener, Atom, Node>(alloc, text) {
        Ok(nodes) => Ok(nodes),
        Err(fault) => Err(named(fault)),
    }
}

fn named(fault: GroupFault) -> TreeTextFault
    ensures { result ≡ named fault }
{
    match fault {
        GroupFault::Leaf { at } => TreeTextFault::Atom { at },
        GroupFault::Barred { at } => TreeTextFault::BlockInAnyOf { at },
        GroupFault::Open { at } => TreeTextFault::Open { at },
        GroupFault::Close { at } => TreeTextFault::Close { at },
        GroupFault::NoSpace { at } => TreeTextFault::NoSpace { at },
        GroupFault::Depth => TreeTextFault::Depth,
        GroupFault::Memory => TreeTextFault::Memory,
    }
}

impl GroupNode<DepOpener, Atom> for Node {
    ghost use Rattle.dep_atom.specs.Values.{AtomValue, atom_value};
    ghost use Rattle.dep_tree.specs.View.{kind_of, view};
    ghost use Rattle.dep_tree.specs.Grammar.{grammar, is_block};

    ghost Value = { AtomValue };

    ghost grammar = { grammar };

    ghost barred = { is_block };

    ghost kind = { kind_of };

    ghost said = { atom_value };

    ghost view = { view };

    fn of_leaf(leaf: Atom) -> Node {
        Node::Leaf(leaf)
    }

    fn of_group(opener: Option<DepOpener>, nodes: Vec<Node>) -> Node
        ensures { view result ≡ group (opener_map kind_of opener) (trees_view nodes.items) }
    {
        match opener {
            None => Node::All(nodes),
            Some(DepOpener::AnyOf) => Node::AnyOf(nodes),
            Some(DepOpener::When { flag, on }) => Node::When { flag, on, nodes },
        }
    }

    fn is_any_of(opener: &DepOpener) -> bool {
        matches!(opener, DepOpener::AnyOf)
    }

    fn is_barred(leaf: &Atom) -> bool {
        is_block(leaf)
    }

    fn keeps_brackets() -> bool {
        true
    }

    fn opener(opener: Opener<Flag>) -> Option<DepOpener> {
        match opener {
            Opener::AnyOf => Some(DepOpener::AnyOf),
            Opener::When { flag, on } => Some(DepOpener::When { flag, on }),
            Opener::ExactlyOne | Opener::AtMostOne => None,
        }
    }

    fn leaf(alloc: Global, word: &str) -> Result<Option<Atom>, AllocError> {
        match Atom::parse(alloc, word) {
            Ok(atom) => Ok(Some(atom)),
            Err(AtomFault::Memory) => Err(AllocError),
            Err(_) => Ok(None),
        }
    }
}
