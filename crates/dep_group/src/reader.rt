ghost use Rattle.std.specs.Prelude.{◌≡◌, ◌≢◌, ◌+◌, ◌∷◌, ◌++◌, ◌&&◌, [], Bool, List, map, IfOk};
ghost use Rattle.std.specs.Prelude.{IfErr, MatchOption, OnOk, None, Ok, Err, ℕ};
ghost use Rattle.std.specs.List.{list_any};
ghost use Rattle.dep_group.specs.declared.token.GroupFault.TheVariants.{Memory};
ghost use Rattle.dep_group.specs.declared.token.Opener.{Opener};
ghost use Rattle.dep_group.specs.declared.token.Token.{Token};
ghost use Rattle.dep_group.specs.declared.token.Token.TheVariants.{Closes, Leaf, Opens};
ghost use Rattle.dep_group.specs.Trees.{Tree, is_any_of, opens_any, trees_of};
ghost use Rattle.dep_group.specs.Trees.{group as tree_group, leaf as tree_leaf};
ghost use Rattle.dep_group.specs.Reading.{in_any_of, read};
ghost use Rattle.dep_group.specs.Maps.{opener_map, token_map};
ghost use Rattle.dep_group.specs.Nodes.{finished_here, read_on, stacked};
ghost use Rattle.dep_group.specs.Tokens.{Grammar, HasFlagName, IsLeafWord, IsOnlyLeaf, IsOpener};

use crate::token::{GroupFault, Opener, Token};
use pms_names::Flag;
use std::alloc::{AllocError, Global};
use std::mem;

/// How many groups may be open at once.
const MOST_OPEN: usize = 64;

/// A kind of text of groups, by the nodes that it is read into. `K` are its openers, `L` its
/// leaves.
pub trait Node<K, L>: Sized {
    /// What a leaf says.
    ghost Value: { Type 0 };

    ghost grammar: { Grammar Value };

    /// The leaves that may not stand inside an any-of group.
    ghost barred: { Value → Bool };

    /// What an opener opens.
    ghost kind: { K → Opener (List ℕ) };

    ghost said: { L → Value };

    /// The tree that a node is.
    ghost view: { Self → Tree (Opener (List ℕ)) Value };

    fn of_leaf(leaf: L) -> Self
        ensures { view result ≡ tree_leaf (said leaf) };

    fn of_group(opener: Option<K>, nodes: Vec<Self>) -> Self
        ensures { view result ≡
            tree_group (opener_map kind opener) (trees_of (map view nodes.items)) };

    fn is_any_of(opener: &K) -> bool
        ensures { result ≡ is_any_of (kind opener.now) };

    fn is_barred(leaf: &L) -> bool
        ensures { result ≡ barred (said leaf.now) };

    /// Whether brackets keep the parentheses in them.
    fn keeps_brackets() -> bool
        ensures { result ≡ grammar.brackets };

    /// The opener, if groups of this kind of text have it.
    fn opener(opener: Opener<Flag>) -> Option<K>
        requires { HasFlagName opener }
        ensures { MatchOption result (¬ IsOpener grammar opener)
            (λ k. (kind k ≡ opener) × IsOpener grammar opener) };

    /// The leaf that the word is, if it is one.
    fn leaf(alloc: Global, word: &str) -> Result<Option<L>, AllocError>
        ensures { IfOk result (λ found. MatchOption found (¬ IsLeafWord grammar word.now)
            (λ leaf. IsOnlyLeaf grammar word.now (said leaf))) };
}

/// A group that is open: what opened it, the index of its parenthesis, and the nodes before it.
#[derive(Drop)]
struct Frame<K, N> {
    opener: Option<K>,
    at: usize,
    before: Vec<N>,
}

/// What has been read: the opener right before, the open groups, and the nodes of the innermost.
#[derive(Drop)]
struct Reader<K, N> {
    begun: Option<K>,
    stack: Vec<Frame<K, N>>,
    done: Vec<N>,
}

/// The nodes that the tokens make, or the first fault, whose place is the index of its token.
pub(crate) fn read_nodes<K: Drop, L: Drop, N: Node<K, L> + Drop>(
    alloc: Global,
    tokens: Vec<Token<K, L>>,
) -> Result<Vec<N>, GroupFault>
    ensures ok { IfOk result (λ nodes.
        read is_any_of N.barred (map (token_map N.kind N.said) tokens.items) 0 None [] [] ≡
        Ok (map N.view nodes.items)) }
    ensures err { IfErr result (λ e. e ≢ Memory →
        read is_any_of N.barred (map (token_map N.kind N.said) tokens.items) 0 None [] [] ≡ Err e) }
{
    let mut reader = Reader {
        begun: None,
        stack: Vec::new(alloc),
        done: Vec::new(alloc),
    };
    let count = tokens.len();
    for (at, token) in tokens.into_iter().enumerate() {
        step(&mut reader, token, at)?;
    }
    finish(reader, count)
}

fn step<K: Drop, L: Drop, N: Node<K, L> + Drop>(
    reader: &mut Reader<K, N>,
    token: Token<K, L>,
    at: usize,
) -> Result<(), GroupFault>
    ensures ok { OnOk result ((rest : List (Token (Opener (List ℕ)) N.Value)) →
        read_on N.kind N.view N.barred reader.old (token_map N.kind N.said token ∷ rest) at ≡
        read_on N.kind N.view N.barred reader.new rest (at + 1)) }
    ensures err { IfErr result (λ e. e ≢ Memory → (rest : List (Token (Opener (List ℕ)) N.Value)) →
        read_on N.kind N.view N.barred reader.old (token_map N.kind N.said token ∷ rest) at ≡
        Err e) }
{
    if reader.begun.is_some() {
        return match token {
            Token::Opens => open(reader, at),
            _ => Err(GroupFault::Leaf {
                at: at.saturating_sub(1),
            }),
        };
    }
    match token {
        Token::Leaf(leaf) => push_leaf(reader, leaf, at),
        Token::Begins(opener) => {
            reader.begun = Some(opener);
            Ok(())
        }
        Token::Opens => open(reader, at),
        Token::Closes => close(reader, at),
        Token::Glued => Err(GroupFault::NoSpace { at }),
        Token::Unknown => Err(GroupFault::Leaf { at }),
    }
}

fn push_leaf<K: Drop, L: Drop, N: Node<K, L> + Drop>(
    reader: &mut Reader<K, N>,
    leaf: L,
    at: usize,
) -> Result<(), GroupFault>
    requires { reader.old.begun ≡ None }
    ensures ok { OnOk result ((rest : List (Token (Opener (List ℕ)) N.Value)) →
        read_on N.kind N.view N.barred reader.old (Leaf (N.said leaf) ∷ rest) at ≡
        read_on N.kind N.view N.barred reader.new rest (at + 1)) }
    ensures err { IfErr result (λ e. e ≢ Memory → (rest : List (Token (Opener (List ℕ)) N.Value)) →
        read_on N.kind N.view N.barred reader.old (Leaf (N.said leaf) ∷ rest) at ≡ Err e) }
{
    if is_refused::<K, L, N>(&reader.stack, &leaf) {
        return Err(GroupFault::Barred { at });
    }
    push(&mut reader.done, N::of_leaf(leaf))?;
    Ok(())
}

fn open<K: Drop, L: Drop, N: Node<K, L> + Drop>(
    reader: &mut Reader<K, N>,
    at: usize,
) -> Result<(), GroupFault>
    ensures ok { OnOk result ((rest : List (Token (Opener (List ℕ)) N.Value)) →
        read_on N.kind N.view N.barred reader.old (Opens ∷ rest) at ≡
        read_on N.kind N.view N.barred reader.new rest (at + 1)) }
    ensures err { IfErr result (λ e. e ≢ Memory → (rest : List (Token (Opener (List ℕ)) N.Value)) →
        read_on N.kind N.view N.barred reader.old (Opens ∷ rest) at ≡ Err e) }
{
    if reader.stack.len() >= MOST_OPEN {
        return Err(GroupFault::Depth);
    }
    let inner = Vec::new(*reader.done.allocator());
    let before = mem::replace(&mut reader.done, inner);
    let opener = reader.begun.take();
    push(&mut reader.stack, Frame { opener, at, before })?;
    Ok(())
}

fn close<K: Drop, L: Drop, N: Node<K, L> + Drop>(
    reader: &mut Reader<K, N>,
    at: usize,
) -> Result<(), GroupFault>
    requires { reader.old.begun ≡ None }
    ensures ok { OnOk result ((rest : List (Token (Opener (List ℕ)) N.Value)) →
        read_on N.kind N.view N.barred reader.old (Closes ∷ rest) at ≡
        read_on N.kind N.view N.barred reader.new rest (at + 1)) }
    ensures err { IfErr result (λ e. e ≢ Memory → (rest : List (Token (Opener (List ℕ)) N.Value)) →
        read_on N.kind N.view N.barred reader.old (Closes ∷ rest) at ≡ Err e) }
{
    match reader.stack.pop() {
        None => Err(GroupFault::Close { at }),
        Some(frame) => {
            let Frame {
                opener,
                at: _,
                before,
            } = frame;
            let nodes = mem::replace(&mut reader.done, before);
            push(&mut reader.done, N::of_group(opener, nodes))?;
            Ok(())
        }
    }
}

fn finish<K: Drop, L: Drop, N: Node<K, L> + Drop>(
    reader: Reader<K, N>,
    at: usize,
) -> Result<Vec<N>, GroupFault>
    ensures ok { IfOk result (λ nodes.
        finished_here N.kind N.view reader at ≡ Ok (map N.view nodes.items)) }
    ensures err { IfErr result (λ e.
        finished_here N.kind N.view reader at ≡ Err e) }
{
    let Reader { begun, stack, done } = reader;
    if begun.is_some() {
        return Err(GroupFault::Leaf {
            at: at.saturating_sub(1),
        });
    }
    if stack.is_empty() {
        return Ok(done);
    }
    Err(GroupFault::Open { at: stack[0].at })
}

fn is_refused<K, L, N: Node<K, L>>(stack: &[Frame<K, N>], leaf: &L) -> bool
    ensures { result ≡
        (in_any_of is_any_of (stacked N.kind N.view stack.now) && N.barred (N.said leaf.now)) }
{
    any_of_is_open::<K, L, N>(stack) && N::is_barred(leaf)
}

fn any_of_is_open<K, L, N: Node<K, L>>(stack: &[Frame<K, N>]) -> bool
    ensures { result ≡
        list_any (λ f. opens_any is_any_of (opener_map N.kind f.opener)) stack.now }
{
    for frame in stack {
        if opens_any_of::<K, L, N>(&frame.opener) {
            return true;
        }
    }
    false
}

fn opens_any_of<K, L, N: Node<K, L>>(opener: &Option<K>) -> bool
    ensures { result ≡ opens_any is_any_of (opener_map N.kind opener.now) }
{
    match opener {
        Some(opener) => N::is_any_of(opener),
        None => false,
    }
}

fn push<T: Drop>(items: &mut Vec<T>, item: T) -> Result<(), AllocError>
    ensures { OnOk result (items.new.items ≡ items.old.items ++ item ∷ []) }
{
    items.push(item)?;
    Ok(())
}
