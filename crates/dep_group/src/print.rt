ghost use Rattle.std.specs.Prelude.{◌≡◌, ◌++◌, OnOk, string_bytes};
ghost use Rattle.dep_group.specs.Shapes.{condition};
ghost use Rattle.dep_group.specs.Words.{and_space};

use pms_names::Flag;
use std::alloc::AllocError;

/// Adds a word, which the three parts make together, with a space before it where something stands
/// before it.
pub fn push_word(out: &mut String, before: &str, text: &str, after: &str) -> Result<(), AllocError>
    ensures { OnOk result (string_bytes out.new ≡
        and_space (string_bytes out.old) ++ (before.now ++ (text.now ++ after.now))) }
{
    push_space(out)?;
    out.push_str(before)?;
    out.push_str(text)?;
    out.push_str(after)?;
    Ok(())
}

fn push_space(out: &mut String) -> Result<(), AllocError>
    ensures { OnOk result (string_bytes out.new ≡ and_space (string_bytes out.old)) }
{
    if out.is_empty() {
        return Ok(());
    }
    out.push_str(" ")?;
    Ok(())
}

/// Adds the word that opens a group where the flag is on, or where it is not on.
pub fn push_condition(out: &mut String, flag: &Flag, on: bool) -> Result<(), AllocError>
    ensures { OnOk result (string_bytes out.new ≡
        and_space (string_bytes out.old) ++ condition flag.now on) }
{
    if on {
        push_word(out, "", flag.text(), "?")?;
    } else {
        push_word(out, "!", flag.text(), "?")?;
    }
    Ok(())
}
