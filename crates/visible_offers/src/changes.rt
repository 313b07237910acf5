ghost use Rattle.std.specs.Prelude.{◌≡◌, ◌++◌, ◌∷◌, [], IfOk, OnOk};
ghost use Rattle.visible_offers.specs.Layers.{changes_by};

use crate::said::said;
use crate::word::FlagWord;
use pms_names::{Flag, Flags};
use std::alloc::{AllocError, Global};
use use_flags::Change;

/// Changes of the flags that a candidate knows, which say of each what the words say of it.
pub(crate) fn changes_said(
    alloc: Global,
    words: &[FlagWord],
    known: &Flags,
) -> Result<Vec<Change>, AllocError>
    ensures { IfOk result (λ v. v.items ≡ changes_by words.now known.now) }
{
    let mut changes = Vec::new(alloc);
    for flag in known.list() {
        add_said(&mut changes, words, flag)?;
    }
    Ok(changes)
}

/// Adds the change of the flag that says what the words say of it, if they speak of it.
fn add_said(changes: &mut Vec<Change>, words: &[FlagWord], flag: &Flag) -> Result<(), AllocError>
    ensures { OnOk result (changes.new.items ≡
        changes.old.items ++ changes_by words.now (flag.now ∷ [])) }
{
    match said(words, flag) {
        Some(true) => changes.push(Change::Add(flag.try_clone()?))?,
        Some(false) => changes.push(Change::Take(flag.try_clone()?))?,
        None => {}
    }
    Ok(())
}
