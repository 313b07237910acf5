ghost use Rattle.std.specs.Prelude.{◌≡◌, ◌++◌, IfOk, OnOk, string_bytes};
ghost use Rattle.dep_group.specs.Printing.{Adds, group_tokens};
ghost use Rattle.dep_group.specs.Reading.{all_tokens, tokens};
ghost use Rattle.dep_group.specs.Texts.{text_of};
ghost use Rattle.dep_group.specs.Words.{and_space};
ghost use Rattle.required_use.specs.Grammar.{grammar, item_text};
ghost use Rattle.required_use.specs.View.{trees_view, view};

use crate::required::Required;
use dep_group::{push_condition, push_word};
use pms_names::Flag;
use std::alloc::{AllocError, Global};

/// The text of the expressions, with one space between each two words.
pub fn print(alloc: Global, nodes: &[Required]) -> Result<String, AllocError>
    ensures { IfOk result (λ text. string_bytes text ≡ text_of grammar (trees_view nodes.now)) }
{
    let mut out = String::new(alloc);
    push_all(nodes, &mut out)?;
    Ok(out)
}

#[cycle(print)]
fn push_all(nodes: &[Required], out: &mut String) -> Result<(), AllocError>
    ensures { OnOk result (Adds grammar (string_bytes out.old) (string_bytes out.new)
        (all_tokens (trees_view nodes.now))) }
{
    for node in nodes {
        push(node, out)?;
    }
    Ok(())
}

#[cycle(print)]
fn push_group(nodes: &[Required], out: &mut String) -> Result<(), AllocError>
    ensures { OnOk result (Adds grammar (string_bytes out.old) (string_bytes out.new)
        (group_tokens (trees_view nodes.now))) }
{
    push_word(out, "", "(", "")?;
    push_all(nodes, out)?;
    push_word(out, "", ")", "")?;
    Ok(())
}

#[cycle(print)]
fn push(node: &Required, out: &mut String) -> Result<(), AllocError>
    ensures { OnOk result (Adds grammar (string_bytes out.old) (string_bytes out.new)
        (tokens (view node.now))) }
{
    match node {
        Required::Item { flag, on } => {
            push_item(flag, *on, out)?;
            Ok(())
        }
        Required::All(nodes) => {
            push_group(nodes, out)?;
            Ok(())
        }
        Required::AnyOf(nodes) => {
            push_word(out, "", "||", "")?;
            push_group(nodes, out)?;
            Ok(())
        }
        Required::ExactlyOne(nodes) => {
            push_word(out, "", "^^", "")?;
            push_group(nodes, out)?;
            Ok(())
        }
        Required::AtMostOne(nodes) => {
            push_word(out, "", "??", "")?;
            push_group(nodes, out)?;
            Ok(())
        }
        Required::When { flag, on, nodes } => {
            push_condition(out, flag, *on)?;
            push_group(nodes, out)?;
            Ok(())
        }
    }
}

fn push_item(flag: &Flag, on: bool, out: &mut String) -> Result<(), AllocError>
    ensures { OnOk result (string_bytes out.new ≡
        and_space (string_bytes out.old) ++ item_text flag.now on) }
{
    if on {
        push_word(out, "", flag.text(), "")?;
    } else {
        push_word(out, "!", flag.text(), "")?;
    }
    Ok(())
}
