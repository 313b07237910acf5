ghost use Rattle.std.specs.Prelude.{◌≡◌, IfErr, IfOk, MatchOption, MatchResult};
ghost use Rattle.dep_group.specs.Maps.{opener_map};
ghost use Rattle.dep_group.specs.Trees.{group};
ghost use Rattle.dep_group.specs.Tokens.{IsLeafWord, IsOnlyLeaf};
ghost use Rattle.required_use.specs.Faults.{FirstFault, IsDenial, IsMemory, named};
ghost use Rattle.required_use.specs.Grammar.{grammar, kind};
ghost use Rattle.required_use.specs.Texts.{ItemTrees, WritesItems};
ghost use Rattle.required_use.specs.View.{trees_view, view};

use crate::fault::RequiredFault;
use crate::required::{Item, Required};
use dep_group::{GroupFault, Node, Opener, flag, read_text};
use pms_names::Flag;
use std::alloc::{AllocError, Global};

/// The expressions that the text is.
pub fn read(alloc: Global, text: &str) -> Result<Vec<Required>, RequiredFault>
    ensures found { IfOk result (λ nodes. WritesItems text.now (trees_view nodes.items)) }
    ensures only { (ts : ItemTrees) → WritesItems text.now ts →
        MatchResult result (λ nodes. trees_view nodes.items ≡ ts) IsMemory }
    ensures fault { IfErr result (FirstFault text.now) }
{
    match read_text::<Opener<Flag>, Item, Required>(alloc, text) {
        Ok(nodes) => Ok(nodes),
        Err(fault) => Err(named(fault)),
    }
}

fn named(fault: GroupFault) -> RequiredFault
    ensures { result ≡ named fault }
{
    match fault {
        GroupFault::Leaf { at } => RequiredFault::Item { at },
        GroupFault::Barred { at } => RequiredFault::Item { at },
        GroupFault::Open { at } => RequiredFault::Open { at },
        GroupFault::Close { at } => RequiredFault::Close { at },
        GroupFault::NoSpace { at } => RequiredFault::NoSpace { at },
        GroupFault::Depth => RequiredFault::Depth,
        GroupFault::Memory => RequiredFault::Memory,
    }
}

impl Node<Opener<Flag>, Item> for Required {
    ghost use Rattle.std.specs.Prelude.{ℕ, List};
    ghost use Rattle.dep_group.specs.declared.token.Opener.{Opener};
    ghost use Rattle.required_use.specs.declared.required.Item.{Item};
    ghost use Rattle.required_use.specs.View.{view};
    ghost use Rattle.required_use.specs.Grammar.{grammar, kind, never};

    ghost Value = { Item };

    ghost grammar = { grammar };

    ghost barred = { never };

    ghost kind = { kind };

    ghost said = { λ item. item };

    ghost view = { view };

    fn of_leaf(leaf: Item) -> Required {
        let Item { flag, on } = leaf;
        Required::Item { flag, on }
    }

    fn of_group(opener: Option<Opener<Flag>>, nodes: Vec<Required>) -> Required
        ensures { view result ≡ group (opener_map kind opener) (trees_view nodes.items) }
    {
        match opener {
            None => Required::All(nodes),
            Some(Opener::AnyOf) => Required::AnyOf(nodes),
            Some(Opener::ExactlyOne) => Required::ExactlyOne(nodes),
            Some(Opener::AtMostOne) => Required::AtMostOne(nodes),
            Some(Opener::When { flag, on }) => Required::When { flag, on, nodes },
        }
    }

    fn is_any_of(opener: &Opener<Flag>) -> bool {
        matches!(opener, Opener::AnyOf)
    }

    fn is_barred(_leaf: &Item) -> bool {
        false
    }

    fn keeps_brackets() -> bool {
        false
    }

    fn opener(opener: Opener<Flag>) -> Option<Opener<Flag>> {
        Some(opener)
    }

    fn leaf(alloc: Global, word: &str) -> Result<Option<Item>, AllocError> {
        item(alloc, word)
    }
}

/// The flag that the word wants on, or off, if it is one.
fn item(alloc: Global, word: &str) -> Result<Option<Item>, AllocError>
    ensures { IfOk result (λ found. MatchOption found (¬ IsLeafWord grammar word.now)
        (IsOnlyLeaf grammar word.now)) }
{
    let (on, text) = denied(word);
    match flag(alloc, text)? {
        Some(flag) => Ok(Some(Item { flag, on })),
        None => Ok(None),
    }
}

/// Whether no exclamation mark comes first, and what comes behind it.
fn denied(word: &str) -> (bool, &str)
    ensures { IsDenial word.now result.0 result.1.now }
{
    match word.strip_prefix('!') {
        Some(rest) => (false, rest),
        None => (true, word),
    }
}
