ghost use Rattle.std.specs.Prelude.{◌≡◌, ◌++◌, OnOk, decimal, map, string_bytes};
ghost use Rattle.std.specs.List.{flat_map};
ghost use Rattle.std.specs.Option.{option_map};
ghost use Rattle.dep_atom.specs.Ids.{id_text};
ghost use Rattle.dep_atom.specs.Values.{atom_value};
ghost use Rattle.pkg_state.specs.Package.{class_word};
ghost use Rattle.plan_text.specs.Printed.{spaced};
ghost use Rattle.plan_words.specs.Words.{found_word, leaf_word};

use dep_atom::{Atom, Bind, PackageId};
use itoa::Buffer;
use pkg_state::Class;
use std::alloc::{AllocError, Global};

/// Puts a word behind the text, with a space before it.
pub(crate) fn push_word(out: &mut String, word: &str) -> Result<(), AllocError>
    ensures { OnOk result (string_bytes out.new ≡ string_bytes out.old ++ spaced word.now) }
{
    out.push_str(" ")?;
    out.push_str(word)
}

pub(crate) fn push_number(out: &mut String, number: usize) -> Result<(), AllocError>
    ensures { OnOk result (string_bytes out.new ≡
        string_bytes out.old ++ spaced (decimal number)) }
{
    let mut buffer = Buffer::new();
    push_word(out, buffer.format(number))
}

pub(crate) fn push_numbers(out: &mut String, numbers: &[usize]) -> Result<(), AllocError>
    ensures { OnOk result (string_bytes out.new ≡
        string_bytes out.old ++ flat_map spaced (map decimal numbers.now)) }
{
    for number in numbers {
        push_number(out, *number)?;
    }
    Ok(())
}

pub(crate) fn push_id(out: &mut String, alloc: Global, id: &PackageId) -> Result<(), AllocError>
    ensures { OnOk result (string_bytes out.new ≡
        string_bytes out.old ++ spaced (id_text id.now)) }
{
    let text = id.print(alloc)?;
    push_word(out, &text)
}

pub(crate) fn push_class(out: &mut String, class: Class) -> Result<(), AllocError>
    ensures { OnOk result (string_bytes out.new ≡
        string_bytes out.old ++ spaced (class_word class)) }
{
    push_word(out, class.word())
}

pub(crate) fn push_leaf(
    out: &mut String,
    alloc: Global,
    leaf: &Option<Atom>,
) -> Result<(), AllocError>
    ensures { OnOk result (string_bytes out.new ≡
        string_bytes out.old ++ spaced (leaf_word (option_map atom_value leaf.now))) }
{
    match leaf {
        Some(atom) => {
            let text = atom.print(alloc)?;
            push_word(out, &text)
        }
        None => push_word(out, "-"),
    }
}

pub(crate) fn push_found(out: &mut String, found: &Option<Bind>) -> Result<(), AllocError>
    ensures { OnOk result (string_bytes out.new ≡
        string_bytes out.old ++ spaced (found_word found.now)) }
{
    match found {
        Some(bind) => {
            push_word(out, bind.slot.text())?;
            out.push_str("/")?;
            out.push_str(bind.subslot.text())
        }
        None => push_word(out, "-"),
    }
}
