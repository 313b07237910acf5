ghost use Rattle.std.specs.Prelude.{◌≡◌, ◌++◌, IfOk, OnOk, string_bytes};
ghost use Rattle.dep_atom.specs.Text.{value_text};
ghost use Rattle.dep_atom.specs.Values.{atom_value};
ghost use Rattle.dep_group.specs.Printing.{Adds, group_tokens};
ghost use Rattle.dep_group.specs.Reading.{all_tokens, tokens};
ghost use Rattle.dep_group.specs.Texts.{text_of};
ghost use Rattle.dep_group.specs.Words.{and_space};
ghost use Rattle.dep_tree.specs.Grammar.{grammar};
ghost use Rattle.dep_tree.specs.View.{trees_view, view};

use crate::tree::Node;
use dep_atom::Atom;
use dep_group::{push_condition, push_word};
use std::alloc::{AllocError, Global};

/// The text of the dependencies, with one space between each two words.
pub fn print(alloc: Global, nodes: &[Node]) -> Result<String, AllocError>
    ensures { IfOk result (λ text. string_bytes text ≡ text_of grammar (trees_view nodes.now)) }
{
    let mut out = String::new(alloc);
    push_all(alloc, nodes, &mut out)?;
    Ok(out)
}

#[cycle(print)]
fn push_all(alloc: Global, nodes: &[Node], out: &mut String) -> Result<(), AllocError>
    ensures { OnOk result (Adds grammar (string_bytes out.old) (string_bytes out.new)
        (all_tokens (trees_view nodes.now))) }
{
    for node in nodes {
        push(alloc, node, out)?;
    }
    Ok(())
}

#[cycle(print)]
fn push_group(alloc: Global, nodes: &[Node], out: &mut String) -> Result<(), AllocError>
    ensures { OnOk result (Adds grammar (string_bytes out.old) (string_bytes out.new)
        (group_tokens (trees_view nodes.now))) }
{
    push_word(out, "", "(", "")?;
    push_all(alloc, nodes, out)?;
    push_word(out, "", ")", "")?;
    Ok(())
}

#[cycle(print)]
fn push(alloc: Global, node: &Node, out: &mut String) -> Result<(), AllocError>
    ensures { OnOk result (Adds grammar (string_bytes out.old) (string_bytes out.new)
        (tokens (view node.now))) }
{
    match node {
        Node::Leaf(atom) => {
            push_atom(alloc, atom, out)?;
            Ok(())
        }
        Node::All(nodes) => {
            push_group(alloc, nodes, out)?;
            Ok(())
        }
        Node::AnyOf(nodes) => {
            push_word(out, "", "||", "")?;
            push_group(alloc, nodes, out)?;
            Ok(())
        }
        Node::When { flag, on, nodes } => {
            push_condition(out, flag, *on)?;
            push_group(alloc, nodes, out)?;
            Ok(())
        }
    }
}

fn push_atom(alloc: Global, atom: &Atom, out: &mut String) -> Result<(), AllocError>
    ensures { OnOk result (string_bytes out.new ≡
        and_space (string_bytes out.old) ++ value_text (atom_value atom.now)) }
{
    let text = atom.print(alloc)?;
    push_word(out, "", text.as_str(), "")?;
    Ok(())
}
