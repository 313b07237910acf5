ghost use Rattle.std.specs.Prelude.{◌≡◌, ◌↔◌, ◌⊎◌, ◌∷◌, ◌++◌, ℕ, [], true, IfOk, List, OnOk};
ghost use Rattle.std.specs.Prelude.{bytes_eq, filter, map};
ghost use Rattle.pms_names.specs.Flags.{has};
ghost use Rattle.pms_names.specs.Names.{IsName};
ghost use Rattle.pms_names.specs.declared.kind.Kind.TheVariants.{Flag as FlagKind};
ghost use Rattle.visible_offers.specs.Flags.{AreImplicit};
ghost use Rattle.config_vars.specs.Values.{flag_of};
ghost use Rattle.visible_offers.specs.Words.{arch_of, flags_of, implicit_texts, implicit_variables};

use crate::words::has;
use basics::Text;
use config_vars::{FileVars, expanded, flag_of, last_value, stacked};
use pms_names::{Flag, Flags, NameFault};
use std::alloc::{AllocError, Global};

/// The flags that are on for all packages: the value of ARCH, and those of the variables that are
/// expanded and that USE_EXPAND_IMPLICIT names. The files stand in the order in which they are read.
pub fn implicit_flags(alloc: Global, files: &[FileVars]) -> Result<Flags, AllocError>
    ensures { IfOk result (AreImplicit files.now) }
{
    let texts = implicit_texts(alloc, files)?;
    flags_among(alloc, &texts)
}

fn implicit_texts(alloc: Global, files: &[FileVars]) -> Result<Vec<Text>, AllocError>
    ensures { IfOk result (λ v. v.items ≡ implicit_texts files.now) }
{
    let variables = implicit_variables(alloc, files)?;
    let mut texts = arch_of(alloc, files)?;
    for variable in &variables {
        add_flags(alloc, files, variable, &mut texts)?;
    }
    Ok(texts)
}

fn arch_of(alloc: Global, files: &[FileVars]) -> Result<Vec<Text>, AllocError>
    ensures { IfOk result (λ v. v.items ≡ arch_of files.now) }
{
    let mut texts = Vec::new(alloc);
    if let Some(arch) = last_value(files, "ARCH") {
        texts.push(Text::new(alloc, arch)?)?;
    }
    Ok(texts)
}

/// The variables that are expanded and that USE_EXPAND_IMPLICIT names.
fn implicit_variables<'a>(alloc: Global, files: &'a [FileVars]) -> Result<Vec<&'a str>, AllocError>
    ensures { IfOk result (λ v. map (λ x. x.now) v.items ≡ implicit_variables files.now) }
{
    let named = stacked(alloc, files, "USE_EXPAND_IMPLICIT")?;
    let variables = expanded(alloc, files)?;
    named_among(alloc, &named, &variables)
}

fn named_among<'a>(
    alloc: Global,
    named: &[&'a str],
    variables: &[&'a str],
) -> Result<Vec<&'a str>, AllocError>
    ensures { IfOk result (λ v. map (λ x. x.now) v.items ≡
        filter (has (map (λ x. x.now) named.now)) (map (λ x. x.now) variables.now)) }
{
    let mut kept = Vec::new(alloc);
    for variable in variables {
        keep(&mut kept, named, variable)?;
    }
    Ok(kept)
}

fn keep<'a>(kept: &mut Vec<&'a str>, named: &[&'a str], variable: &'a str) -> Result<(), AllocError>
    ensures { OnOk result (map (λ x. x.now) kept.new.items ≡ map (λ x. x.now) kept.old.items
        ++ filter (has (map (λ x. x.now) named.now)) (variable.now ∷ [])) }
{
    if has(named, variable) {
        kept.push(variable)?;
    }
    Ok(())
}

/// Adds what the words of the variable make that stand over all files.
fn add_flags(
    alloc: Global,
    files: &[FileVars],
    variable: &str,
    texts: &mut Vec<Text>,
) -> Result<(), AllocError>
    ensures { OnOk result (texts.new.items ≡
        texts.old.items ++ flags_of files.now variable.now) }
{
    let words = stacked(alloc, files, variable)?;
    add_each(alloc, variable, &words, texts)
}

fn add_each(
    alloc: Global,
    variable: &str,
    words: &[&str],
    texts: &mut Vec<Text>,
) -> Result<(), AllocError>
    ensures { OnOk result (texts.new.items ≡
        texts.old.items ++ map (flag_of variable.now) (map (λ x. x.now) words.now)) }
{
    for word in words {
        texts.push(flag_of(alloc, variable, word)?)?;
    }
    Ok(())
}

/// The texts that are flags.
fn flags_among(alloc: Global, texts: &[Text]) -> Result<Flags, AllocError>
    ensures { IfOk result (λ set. (flag : List ℕ) → (has set flag ≡ true) ↔
        (IsName FlagKind flag × (has texts.now flag ≡ true))) }
{
    let mut flags = Flags::new(alloc);
    for text in texts {
        add_flag(alloc, &mut flags, text)?;
    }
    Ok(flags)
}

/// Adds the flag of this text, if it is one.
fn add_flag(alloc: Global, flags: &mut Flags, text: &Text) -> Result<(), AllocError>
    ensures { OnOk result ((flag : List ℕ) → (has flags.new flag ≡ true) ↔
        ((has flags.old flag ≡ true)
        ⊎ (IsName FlagKind flag × (bytes_eq flag text.now ≡ true)))) }
{
    match Flag::parse(alloc, text.as_str()) {
        Ok(flag) => {
            let _ = flags.insert(flag)?;
            Ok(())
        }
        Err(NameFault::Memory) => Err(AllocError),
        Err(_) => Ok(()),
    }
}
