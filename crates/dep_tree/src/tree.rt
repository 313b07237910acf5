ghost use Rattle.std.specs.Prelude.{◌≡◌, ◌++◌, ◌↔◌, ◌&&◌, ◌||◌, Bool, IfErr, IfOk, List};
ghost use Rattle.std.specs.Prelude.{MatchResult, OnOk, map, nat_lt, not, string_bytes, ℕ};
ghost use Rattle.dep_atom.specs.Values.{atom_value};
ghost use Rattle.dep_group.specs.Trees.{all_hold, all_leaves, has_member, holds, is_member};
ghost use Rattle.dep_group.specs.Trees.{is_met, leaves, true_members};
ghost use Rattle.dep_group.specs.Tokens.{IsInForm};
ghost use Rattle.pms_names.specs.Flags.{has};
ghost use Rattle.dep_tree.specs.Faults.{FirstFault, HasFault, IsMemory};
ghost use Rattle.dep_tree.specs.Texts.{AreDependencies, AtomTrees, Dependencies, Writes};
ghost use Rattle.dep_tree.specs.Texts.{no_dependencies, text_of};
ghost use Rattle.dep_tree.specs.Grammar.{AreAtomsInGroups, grammar, is_block};
ghost use Rattle.dep_tree.specs.Truth.{all_met, counted_leaves, is_fact, kind};
ghost use Rattle.dep_tree.specs.View.{trees, trees_view, view};
ghost use Rattle.dep_tree.specs.declared.fault.TreeTextFault.{TreeTextFault};

use crate::fault::TreeTextFault;
use crate::present::Present;
use crate::{copy, parse, print};
use dep_atom::{Atom, Block};
use pms_names::{Flag, Flags};
use std::alloc::{AllocError, Global};

/// One dependency: an atom, or a group of dependencies.
#[derive(Debug, Drop)]
pub enum Node {
    Leaf(Atom),
    All(Vec<Node>),
    AnyOf(Vec<Node>),
    /// The members count where the flag is on, or where it is not on.
    When {
        flag: Flag,
        on: bool,
        nodes: Vec<Node>,
    },
}

/// What a package depends on: all of these.
#[derive(Debug, Drop)]
pub struct DepTree {
    pub nodes: Vec<Node>,
    /// Whether an any-of group holds where it has no member.
    pub empty_holds: bool,
}

impl DepTree {
    /// That of a package which depends on nothing.
    pub fn new(alloc: Global, empty_holds: bool) -> DepTree
        ensures { trees result ≡ no_dependencies empty_holds }
    {
        DepTree {
            nodes: Vec::new(alloc),
            empty_holds,
        }
    }

    /// Reads the whole text. Its first fault from the left is given; a group that is never closed is
    /// a fault at the end. Whether an empty any-of group holds is not in the text.
    pub fn parse(alloc: Global, text: &str, empty_holds: bool) -> Result<DepTree, TreeTextFault>
        ensures found { IfOk result (λ t. Writes empty_holds text.now (trees t)) }
        ensures only { (x : Dependencies) → Writes empty_holds text.now x →
            MatchResult result (λ t. trees t ≡ x) IsMemory }
        ensures fault { IfErr result (FirstFault text.now) }
    {
        match parse::read(alloc, text) {
            Ok(nodes) => Ok(DepTree { nodes, empty_holds }),
            Err(fault) => Err(fault),
        }
    }

    /// The text, with one space between each two words.
    pub fn print(&self, alloc: Global) -> Result<String, AllocError>
        ensures { IfOk result (λ text. string_bytes text ≡ text_of (trees self.now)) }
    {
        print::print(alloc, &self.nodes)
    }

    /// Whether all hold with these packages, of an asker with these flags. A block holds here.
    pub fn holds<P: Present>(&self, present: &P, asker: &Flags) -> bool
        ensures { result ≡ all_met (P.facts present.now) asker.now (trees self.now) }
    {
        all_hold(&self.nodes, present, asker, self.empty_holds)
    }

    /// The atoms that no unmet condition excludes, in the order in which they are written.
    pub fn leaves(&self, alloc: Global, asker: &Flags) -> Result<Vec<&Atom>, AllocError>
        ensures { IfOk result (λ v. map (λ atom. atom_value atom.now) v.items ≡
            counted_leaves asker.now (trees self.now)) }
    {
        let mut out = Vec::new(alloc);
        push_all_leaves(&self.nodes, asker, &mut out)?;
        Ok(out)
    }

    pub fn try_clone(&self) -> Result<DepTree, AllocError>
        ensures { IfOk result (λ t. trees t ≡ trees self.now) }
    {
        let nodes = copy::copy_all(*self.nodes.allocator(), &self.nodes)?;
        let empty_holds = self.empty_holds;
        Ok(DepTree { nodes, empty_holds })
    }
}

/// The text of a tree in form writes it: with the clauses of `parse` and `print`, what is printed is
/// read back.
pub fn printed_text_has_the_words()
    ensures { (x : Dependencies) → IsInForm grammar is_block x.groups →
        Writes x.empty_holds (text_of x) x }
{}

/// Trees in form are atoms in groups, at most 64 in one another, with no block in an any-of group: each
/// such tree has a text, which is read as it.
pub fn trees_in_form_are_atoms_in_groups()
    ensures { (ts : AtomTrees) → IsInForm grammar is_block ts ↔ AreAtomsInGroups ts }
{}

/// A law: but for want of memory a text has one fault at most, and dependencies have none.
pub fn one_fault()
    ensures once { (text : List ℕ) (a b : TreeTextFault) → HasFault text a → HasFault text b →
        a ≡ b }
    ensures none { (text : List ℕ) (a : TreeTextFault) → AreDependencies text → ¬ HasFault text a }
{}

impl Node {
    /// Whether it holds with these packages, of an asker with these flags, where it is said whether
    /// an any-of group without members holds. A block holds here.
    #[cycle(holds)]
    pub fn holds<P: Present>(&self, present: &P, asker: &Flags, empty_holds: bool) -> bool
        ensures { result ≡ holds empty_holds kind (is_fact (P.facts present.now) asker.now)
            (has asker.now) (view self.now) }
    {
        match self {
            Node::Leaf(atom) => is_fact(atom, present, asker),
            Node::All(nodes) => all_hold(nodes, present, asker, empty_holds),
            Node::AnyOf(nodes) => {
                some_member_holds(nodes, present, asker, empty_holds)
                    || holds_empty(nodes, asker, empty_holds)
            }
            Node::When { flag, on, nodes } => {
                !is_met(asker, flag, *on) || all_hold(nodes, present, asker, empty_holds)
            }
        }
    }
}

#[cycle(holds)]
fn all_hold<P: Present>(nodes: &[Node], present: &P, asker: &Flags, empty_holds: bool) -> bool
    ensures { result ≡ all_hold empty_holds kind (is_fact (P.facts present.now) asker.now)
        (has asker.now) (trees_view nodes.now) }
{
    for node in nodes {
        if !node.holds(present, asker, empty_holds) {
            return false;
        }
    }
    true
}

#[cycle(holds)]
fn some_member_holds<P: Present>(
    nodes: &[Node],
    present: &P,
    asker: &Flags,
    empty_holds: bool,
) -> bool
    ensures { result ≡ nat_lt 0
        (true_members empty_holds kind (is_fact (P.facts present.now) asker.now) (has asker.now)
        (trees_view nodes.now)) }
{
    for node in nodes {
        if is_member(node, asker) && node.holds(present, asker, empty_holds) {
            return true;
        }
    }
    false
}

/// Whether an any-of group holds for want of members.
fn holds_empty(nodes: &[Node], asker: &Flags, empty_holds: bool) -> bool
    ensures { result ≡
        (empty_holds && not (has_member kind (has asker.now) (trees_view nodes.now))) }
{
    empty_holds && !has_member(nodes, asker)
}

/// Whether one of them is a member of the group that they stand in.
pub fn has_member(nodes: &[Node], asker: &Flags) -> bool
    ensures { result ≡ has_member kind (has asker.now) (trees_view nodes.now) }
{
    for node in nodes {
        if is_member(node, asker) {
            return true;
        }
    }
    false
}

fn is_fact<P: Present>(atom: &Atom, present: &P, asker: &Flags) -> bool
    ensures { result ≡ is_fact (P.facts present.now) asker.now (atom_value atom.now) }
{
    is_block(atom) || present.some_match(atom, asker)
}

/// Whether the atom is a block, of either kind.
pub fn is_block(atom: &Atom) -> bool
    ensures { result ≡ is_block (atom_value atom.now) }
{
    match atom.block {
        Block::No => false,
        Block::Weak | Block::Strong => true,
    }
}

/// Whether the dependency is a member of the group that it stands in: all are but those whose
/// condition isn't met.
pub fn is_member(node: &Node, asker: &Flags) -> bool
    ensures { result ≡ is_member kind (has asker.now) (view node.now) }
{
    match node {
        Node::When { flag, on, .. } => is_met(asker, flag, *on),
        _ => true,
    }
}

fn is_met(asker: &Flags, flag: &Flag, on: bool) -> bool
    ensures { result ≡ is_met (has asker.now) flag.now on }
{
    asker.has(flag) == on
}

#[cycle(leaves)]
fn push_leaves<'a>(node: &'a Node, asker: &Flags, out: &mut Vec<&'a Atom>) -> Result<(), AllocError>
    ensures { OnOk result (map (λ atom. atom_value atom.now) out.new.items ≡
        map (λ atom. atom_value atom.now) out.old.items ++
        leaves kind (has asker.now) (view node.now)) }
{
    match node {
        Node::Leaf(atom) => {
            out.push(atom)?;
            Ok(())
        }
        Node::All(nodes) => {
            push_all_leaves(nodes, asker, out)?;
            Ok(())
        }
        Node::AnyOf(nodes) => {
            push_all_leaves(nodes, asker, out)?;
            Ok(())
        }
        Node::When { flag, on, nodes } => {
            if is_met(asker, flag, *on) {
                push_all_leaves(nodes, asker, out)?;
            }
            Ok(())
        }
    }
}

#[cycle(leaves)]
fn push_all_leaves<'a>(
    nodes: &'a [Node],
    asker: &Flags,
    out: &mut Vec<&'a Atom>,
) -> Result<(), AllocError>
    ensures { OnOk result (map (λ atom. atom_value atom.now) out.new.items ≡
        map (λ atom. atom_value atom.now) out.old.items ++
        all_leaves kind (has asker.now) (trees_view nodes.now)) }
{
    for node in nodes {
        push_leaves(node, asker, out)?;
    }
    Ok(())
}
