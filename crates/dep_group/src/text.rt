ghost use Rattle.std.specs.Prelude.{◌≡◌, IfErr, IfOk, List, MatchOption, MatchResult, map, ℕ};
ghost use Rattle.dep_group.specs.declared.token.Opener.{Opener};
ghost use Rattle.dep_group.specs.Maps.{token_map};
ghost use Rattle.dep_group.specs.Shapes.{shape};
ghost use Rattle.dep_group.specs.Texts.{FirstFault, IsMemory, Writes, placed};
ghost use Rattle.dep_group.specs.Tokens.{AreOnlyTokens, HasFlagName, IsFlag, IsOnlyToken};
ghost use Rattle.dep_group.specs.Tokens.{opener_shape, opener_text};
ghost use Rattle.dep_group.specs.Trees.{Trees, trees_of};
ghost use Rattle.dep_group.specs.Views.{spot};
ghost use Rattle.dep_group.specs.Words.{texts};

use crate::reader::{Node, read_nodes};
use crate::shape::{Shape, flag_of, shape_of};
use crate::token::{GroupFault, Opener, Token};
use crate::word::{Word, place, words};
use pms_names::{Flag, NameFault};
use std::alloc::{AllocError, Global};

/// Reads the whole text. Its first fault from the left is given; a group that is never closed is a
/// fault at the end.
pub fn read_text<K: Drop, L: Drop, N: Node<K, L> + Drop>(
    alloc: Global,
    text: &str,
) -> Result<Vec<N>, GroupFault>
    ensures found { IfOk result (λ nodes.
        Writes N.grammar N.barred text.now (trees_of (map N.view nodes.items))) }
    ensures only { (x : Trees (Opener (List ℕ)) N.Value) → Writes N.grammar N.barred text.now x →
        MatchResult result (λ nodes. trees_of (map N.view nodes.items) ≡ x) IsMemory }
    ensures fault { IfErr result (FirstFault N.grammar N.barred text.now) }
{
    let words = words(alloc, text)?;
    let tokens = tokens::<K, L, N>(alloc, &words)?;
    match read_nodes(alloc, tokens) {
        Ok(nodes) => Ok(nodes),
        Err(fault) => Err(placed(&words, fault)),
    }
}

fn placed(words: &[Word], fault: GroupFault) -> GroupFault
    ensures { result ≡ placed (map spot words.now) fault }
{
    match fault {
        GroupFault::Leaf { at } => GroupFault::Leaf {
            at: place(words, at),
        },
        GroupFault::Barred { at } => GroupFault::Barred {
            at: place(words, at),
        },
        GroupFault::Open { at } => GroupFault::Open {
            at: place(words, at),
        },
        GroupFault::Close { at } => GroupFault::Close {
            at: place(words, at),
        },
        GroupFault::NoSpace { at } => GroupFault::NoSpace {
            at: place(words, at),
        },
        GroupFault::Depth => GroupFault::Depth,
        GroupFault::Memory => GroupFault::Memory,
    }
}

fn tokens<K: Drop, L: Drop, N: Node<K, L> + Drop>(
    alloc: Global,
    words: &[Word],
) -> Result<Vec<Token<K, L>>, AllocError>
    ensures { IfOk result (λ v. AreOnlyTokens N.grammar (texts (map spot words.now))
        (map (token_map N.kind N.said) v.items)) }
{
    let mut tokens = Vec::new(alloc);
    for word in words {
        tokens.push(token::<K, L, N>(alloc, word.text)?)?;
    }
    Ok(tokens)
}

fn token<K: Drop, L: Drop, N: Node<K, L> + Drop>(
    alloc: Global,
    word: &str,
) -> Result<Token<K, L>, AllocError>
    ensures { IfOk result (λ t. IsOnlyToken N.grammar word.now (token_map N.kind N.said t)) }
{
    match shape_of(word, N::keeps_brackets()) {
        Shape::Opens => Ok(Token::Opens),
        Shape::Closes => Ok(Token::Closes),
        Shape::Glued => Ok(Token::Glued),
        Shape::AnyOf => Ok(begins::<K, L, N>(Opener::AnyOf)),
        Shape::ExactlyOne => Ok(begins::<K, L, N>(Opener::ExactlyOne)),
        Shape::AtMostOne => Ok(begins::<K, L, N>(Opener::AtMostOne)),
        Shape::When { on } => condition::<K, L, N>(alloc, word, on),
        Shape::Item => leaf::<K, L, N>(alloc, word),
    }
}

fn begins<K: Drop, L: Drop, N: Node<K, L> + Drop>(opener: Opener<Flag>) -> Token<K, L>
    requires { HasFlagName opener }
    ensures { (word : List ℕ) → word ≡ opener_text opener →
        shape N.grammar.brackets word ≡ opener_shape opener →
        IsOnlyToken N.grammar word (token_map N.kind N.said result) }
{
    match N::opener(opener) {
        Some(opener) => Token::Begins(opener),
        None => Token::Unknown,
    }
}

fn condition<K: Drop, L: Drop, N: Node<K, L> + Drop>(
    alloc: Global,
    word: &str,
    on: bool,
) -> Result<Token<K, L>, AllocError>
    requires { shape N.grammar.brackets word.now ≡ Shape.When on }
    ensures { IfOk result (λ t. IsOnlyToken N.grammar word.now (token_map N.kind N.said t)) }
{
    match flag(alloc, flag_of(word, on))? {
        Some(flag) => Ok(begins::<K, L, N>(Opener::When { flag, on })),
        None => Ok(Token::Unknown),
    }
}

fn leaf<K: Drop, L: Drop, N: Node<K, L> + Drop>(
    alloc: Global,
    word: &str,
) -> Result<Token<K, L>, AllocError>
    requires { shape N.grammar.brackets word.now ≡ Shape.Item }
    ensures { IfOk result (λ t. IsOnlyToken N.grammar word.now (token_map N.kind N.said t)) }
{
    match N::leaf(alloc, word)? {
        Some(leaf) => Ok(Token::Leaf(leaf)),
        None => Ok(Token::Unknown),
    }
}

/// The flag that the text is, if it is one.
pub fn flag(alloc: Global, text: &str) -> Result<Option<Flag>, AllocError>
    ensures { IfOk result (λ found. MatchOption found (¬ IsFlag text.now)
        (λ flag. (flag ≡ text.now) × IsFlag text.now)) }
{
    match Flag::parse(alloc, text) {
        Ok(flag) => Ok(Some(flag)),
        Err(NameFault::Memory) => Err(AllocError),
        Err(_) => Ok(None),
    }
}
