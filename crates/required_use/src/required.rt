ghost use Rattle.std.specs.Prelude.{◌≡◌, ◌+◌, ◌≤◌, ◌↔◌, ◌&&◌, Bool, IfErr, IfOk, IsNone, IsTrue};
ghost use Rattle.std.specs.Prelude.{List, MatchResult, map, not, string_bytes, ℕ};
ghost use Rattle.std.specs.List.{position};
ghost use Rattle.dep_group.specs.Trees.{Trees, all_hold, has_member, holds, is_member, is_met};
ghost use Rattle.dep_group.specs.Trees.{true_members};
ghost use Rattle.pms_names.specs.Flags.{has};
ghost use Rattle.dep_group.specs.Tokens.{IsInForm};
ghost use Rattle.required_use.specs.Faults.{FirstFault, HasFault, IsMemory};
ghost use Rattle.required_use.specs.Texts.{Expressions, IsExpression, Writes, no_expressions};
ghost use Rattle.required_use.specs.Texts.{text_of};
ghost use Rattle.required_use.specs.Grammar.{grammar, is_on, kind, never};
ghost use Rattle.required_use.specs.Truth.{all_fit, first_broken};
ghost use Rattle.required_use.specs.View.{trees, trees_view, view};
ghost use Rattle.required_use.specs.declared.fault.RequiredFault.{RequiredFault};

use crate::fault::RequiredFault;
use crate::{copy, parse, print};
use pms_names::{Flag, Flags};
use std::alloc::{AllocError, Global};

/// A flag that is wanted on, or off.
#[derive(Debug, Drop)]
pub struct Item {
    pub flag: Flag,
    pub on: bool,
}

/// One expression of REQUIRED_USE.
#[derive(Debug, Drop)]
pub enum Required {
    Item {
        flag: Flag,
        on: bool,
    },
    All(Vec<Required>),
    AnyOf(Vec<Required>),
    ExactlyOne(Vec<Required>),
    AtMostOne(Vec<Required>),
    When {
        flag: Flag,
        on: bool,
        nodes: Vec<Required>,
    },
}

/// What a package demands of its flags: all of these.
#[derive(Debug, Drop)]
pub struct RequiredUse {
    pub nodes: Vec<Required>,
    /// Whether an any-of or exactly-one-of group holds where it has no member.
    pub empty_holds: bool,
}

impl RequiredUse {
    /// That of a package whose flags may be set in any way.
    pub fn new(alloc: Global, empty_holds: bool) -> RequiredUse
        ensures { trees result ≡ no_expressions empty_holds }
    {
        RequiredUse {
            nodes: Vec::new(alloc),
            empty_holds,
        }
    }

    /// Reads the whole text. Its first fault from the left is given; a group that is never closed is
    /// a fault at the end. Whether an empty group holds is not in the text.
    pub fn parse(alloc: Global, text: &str, empty_holds: bool) -> Result<RequiredUse, RequiredFault>
        ensures found { IfOk result (λ r. Writes empty_holds text.now (trees r)) }
        ensures only { (x : Expressions) → Writes empty_holds text.now x →
            MatchResult result (λ r. trees r ≡ x) IsMemory }
        ensures fault { IfErr result (FirstFault text.now) }
    {
        match parse::read(alloc, text) {
            Ok(nodes) => Ok(RequiredUse { nodes, empty_holds }),
            Err(fault) => Err(fault),
        }
    }

    /// The text, with one space between each two words.
    pub fn print(&self, alloc: Global) -> Result<String, AllocError>
        ensures { IfOk result (λ text. string_bytes text ≡ text_of (trees self.now)) }
    {
        print::print(alloc, &self.nodes)
    }

    /// Whether all hold where these flags are on, and no others.
    pub fn holds(&self, enabled: &Flags) -> bool
        ensures { result ≡ all_fit (has enabled.now) (trees self.now) }
    {
        all_hold(&self.nodes, enabled, self.empty_holds)
    }

    /// The index of the first of the outermost expressions that does not hold.
    pub fn first_broken(&self, enabled: &Flags) -> Option<usize>
        ensures first { result ≡ first_broken (has enabled.now) (trees self.now) }
        ensures none { IsNone result ↔ IsTrue (all_fit (has enabled.now) (trees self.now)) }
    {
        first_false(&self.nodes, enabled, self.empty_holds)
    }

    pub fn try_clone(&self) -> Result<RequiredUse, AllocError>
        ensures { IfOk result (λ r. trees r ≡ trees self.now) }
    {
        let nodes = copy::copy_all(*self.nodes.allocator(), &self.nodes)?;
        let empty_holds = self.empty_holds;
        Ok(RequiredUse { nodes, empty_holds })
    }
}

fn first_false(nodes: &[Required], enabled: &Flags, empty_holds: bool) -> Option<usize>
    ensures { result ≡ position
        (λ r. not (holds empty_holds kind (is_on (has enabled.now)) (has enabled.now) (view r)))
        nodes.now }
{
    nodes
        .iter()
        .position(|node| !node.holds(enabled, empty_holds))
}

/// The text of expressions in form writes these: with the clauses of `parse` and `print`, what is
/// printed is read back.
pub fn printed_text_has_the_words()
    ensures { (x : Expressions) → IsInForm grammar never x.groups →
        Writes x.empty_holds (text_of x) x }
{}

/// A law: but for want of memory a text has one fault at most, and an expression has none.
pub fn one_fault()
    ensures once { (text : List ℕ) (a b : RequiredFault) → HasFault text a → HasFault text b →
        a ≡ b }
    ensures none { (text : List ℕ) (a : RequiredFault) → IsExpression text → ¬ HasFault text a }
{}

impl Required {
    /// Whether it holds where these flags are on, and no others, where it is said whether an any-of
    /// or exactly-one-of group without members holds.
    #[cycle(holds)]
    pub fn holds(&self, enabled: &Flags, empty_holds: bool) -> bool
        ensures { result ≡
            holds empty_holds kind (is_on (has enabled.now)) (has enabled.now) (view self.now) }
    {
        match self {
            Required::Item { flag, on } => is_met(enabled, flag, *on),
            Required::All(nodes) => all_hold(nodes, enabled, empty_holds),
            Required::AnyOf(nodes) => {
                true_members(nodes, enabled, empty_holds) > 0
                    || holds_empty(nodes, enabled, empty_holds)
            }
            Required::ExactlyOne(nodes) => {
                true_members(nodes, enabled, empty_holds) == 1
                    || holds_empty(nodes, enabled, empty_holds)
            }
            Required::AtMostOne(nodes) => true_members(nodes, enabled, empty_holds) <= 1,
            Required::When { flag, on, nodes } => !is_met(enabled, flag, *on)
                || all_hold(nodes, enabled, empty_holds),
        }
    }
}

#[cycle(holds)]
fn all_hold(nodes: &[Required], enabled: &Flags, empty_holds: bool) -> bool
    ensures { result ≡ all_hold empty_holds kind (is_on (has enabled.now)) (has enabled.now)
        (trees_view nodes.now) }
{
    for node in nodes {
        if !node.holds(enabled, empty_holds) {
            return false;
        }
    }
    true
}

#[cycle(holds)]
fn true_members(nodes: &[Required], enabled: &Flags, empty_holds: bool) -> usize
    ensures { result ≡ true_members empty_holds kind (is_on (has enabled.now)) (has enabled.now)
        (trees_view nodes.now) }
{
    let mut count = 0;
    for node in nodes {
        if is_member(node, enabled) && node.holds(enabled, empty_holds) {
            count += 1;
        }
    }
    count
}

/// Whether a group that wants one of its members holds for want of any.
fn holds_empty(nodes: &[Required], enabled: &Flags, empty_holds: bool) -> bool
    ensures { result ≡
        (empty_holds && not (has_member kind (has enabled.now) (trees_view nodes.now))) }
{
    empty_holds && !has_member(nodes, enabled)
}

fn has_member(nodes: &[Required], enabled: &Flags) -> bool
    ensures { result ≡ has_member kind (has enabled.now) (trees_view nodes.now) }
{
    for node in nodes {
        if is_member(node, enabled) {
            return true;
        }
    }
    false
}

fn is_member(node: &Required, enabled: &Flags) -> bool
    ensures { result ≡ is_member kind (has enabled.now) (view node.now) }
{
    match node {
        Required::When { flag, on, .. } => is_met(enabled, flag, *on),
        _ => true,
    }
}

fn is_met(enabled: &Flags, flag: &Flag, on: bool) -> bool
    ensures { result ≡ is_met (has enabled.now) flag.now on }
{
    enabled.has(flag) == on
}
