ghost use Rattle.std.specs.Prelude.{◌≡◌, ◌∷◌, ◌++◌, [], IfOk, OnOk, filter, fold, map};
ghost use Rattle.dep_group.specs.Views.{spot};
ghost use Rattle.dep_group.specs.Words.{texts};
ghost use Rattle.config_vars.specs.Values.{expanded, flag_of, is_expanded, stacked, with_word};
ghost use Rattle.config_vars.specs.Values.{words_in};

use crate::vars::{FileVars, value_in};
use basics::Text;
use dep_group::{Word, words};
use std::alloc::{AllocError, Global};

/// The words of a variable that stacks over the files, which stand in the order in which they are
/// read. A word stands once, where it was added first since it was last taken away.
pub fn stacked<'a>(
    alloc: Global,
    files: &'a [FileVars],
    key: &str,
) -> Result<Vec<&'a str>, AllocError>
    ensures { IfOk result (λ v. map (λ x. x.now) v.items ≡ stacked key.now files.now) }
{
    let mut since = Vec::new(alloc);
    for file in files {
        add_words(alloc, &mut since, file, key)?;
    }
    profile_folders::stacked(alloc, &since)
}

/// Puts the words of the file's value behind those since the last `-*`.
fn add_words<'a>(
    alloc: Global,
    since: &mut Vec<&'a str>,
    file: &'a FileVars,
    key: &str,
) -> Result<(), AllocError>
    ensures { OnOk result (map (λ x. x.now) since.new.items ≡
        fold with_word (map (λ x. x.now) since.old.items) (words_in key.now file.now)) }
{
    match value_in(&file.assigned, key) {
        Some(value) => add_all(since, &words(alloc, value)?),
        None => Ok(()),
    }
}

fn add_all<'a>(since: &mut Vec<&'a str>, words: &[Word<'a>]) -> Result<(), AllocError>
    ensures { OnOk result (map (λ x. x.now) since.new.items ≡
        fold with_word (map (λ x. x.now) since.old.items) (texts (map spot words.now))) }
{
    for word in words {
        add_word(since, word.text)?;
    }
    Ok(())
}

fn add_word<'a>(since: &mut Vec<&'a str>, word: &'a str) -> Result<(), AllocError>
    ensures { OnOk result (map (λ x. x.now) since.new.items ≡
        with_word (map (λ x. x.now) since.old.items) word.now) }
{
    if word == "-*" {
        since.clear();
    } else {
        since.push(word)?;
    }
    Ok(())
}

/// The variables whose values are flags: those that USE_EXPAND names over all files, but USE.
pub fn expanded<'a>(alloc: Global, files: &'a [FileVars]) -> Result<Vec<&'a str>, AllocError>
    ensures { IfOk result (λ v. map (λ x. x.now) v.items ≡ expanded files.now) }
{
    let named = stacked(alloc, files, "USE_EXPAND")?;
    without_use(alloc, &named)
}

fn without_use<'a>(alloc: Global, named: &[&'a str]) -> Result<Vec<&'a str>, AllocError>
    ensures { IfOk result (λ v. map (λ x. x.now) v.items ≡
        filter is_expanded (map (λ x. x.now) named.now)) }
{
    let mut kept = Vec::new(alloc);
    for variable in named {
        keep(&mut kept, variable)?;
    }
    Ok(kept)
}

fn keep<'a>(kept: &mut Vec<&'a str>, variable: &'a str) -> Result<(), AllocError>
    ensures { OnOk result (map (λ x. x.now) kept.new.items ≡
        map (λ x. x.now) kept.old.items ++ filter is_expanded (variable.now ∷ [])) }
{
    if variable != "USE" {
        kept.push(variable)?;
    }
    Ok(())
}

/// The flag that a word of the expanded variable makes, such as `video_cards_nouveau`.
pub fn flag_of(alloc: Global, variable: &str, word: &str) -> Result<Text, AllocError>
    ensures { IfOk result (λ t. t ≡ flag_of variable.now word.now) }
{
    let mut flag = variable.to_ascii_lowercase(alloc)?;
    flag.push_str("_")?;
    flag.push_str(word)?;
    Ok(Text::from_string(flag))
}
