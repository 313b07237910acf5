ghost use Rattle.std.specs.Prelude.{◌≡◌, ◌++◌, [], IfOk, OnOk, bytes_eq, if◌then◌else◌, map};
ghost use Rattle.std.specs.List.{flat_map, list_any};
ghost use Rattle.config_vars.specs.Judged.{counted};
ghost use Rattle.config_vars.specs.Values.{is_of};
ghost use Rattle.dep_group.specs.Views.{spot};
ghost use Rattle.dep_group.specs.Words.{texts, words_of};
ghost use Rattle.pms_names.specs.Flags.{has};
ghost use Rattle.visible_offers.specs.Words.{flag_word, flag_words, is_of_flags, prefix_of, words_by};

use crate::word::FlagWord;
use basics::Text;
use config_text::Assignment;
use config_vars::{FileVars, flag_of};
use dep_group::{Word, words};
use std::alloc::{AllocError, Global};

/// What the files say of flags, where these variables are expanded: the words of USE and of those,
/// in the order in which they count.
pub fn flag_words(
    alloc: Global,
    variables: &[&str],
    files: &[FileVars],
) -> Result<Vec<FlagWord>, AllocError>
    ensures { IfOk result (λ v. v.items ≡
        flag_words (map (λ x. x.now) variables.now) files.now) }
{
    let mut said = Vec::new(alloc);
    for file in files {
        add_file(alloc, variables, &file.assigned, &mut said)?;
    }
    Ok(said)
}

/// Adds the words of the assignments that none behind them replaces.
fn add_file(
    alloc: Global,
    variables: &[&str],
    assigned: &[Assignment],
    said: &mut Vec<FlagWord>,
) -> Result<(), AllocError>
    ensures { OnOk result (said.new.items ≡ said.old.items
        ++ flat_map (words_by (map (λ x. x.now) variables.now)) (counted assigned.now)) }
{
    let mut rest = assigned;
    while let Some((assignment, behind)) = rest.split_first() {
        add_counted(alloc, variables, assignment, behind, said)?;
        rest = behind;
    }
    Ok(())
}

/// Adds the words of the assignment, unless one of those behind it replaces it.
fn add_counted(
    alloc: Global,
    variables: &[&str],
    assignment: &Assignment,
    behind: &[Assignment],
    said: &mut Vec<FlagWord>,
) -> Result<(), AllocError>
    ensures { OnOk result (said.new.items ≡ said.old.items
        ++ (if list_any (is_of assignment.now.key) behind.now then []
        else words_by (map (λ x. x.now) variables.now) assignment.now)) }
{
    let key = assignment.key.as_str();
    if is_set(behind, key) {
        return Ok(());
    }
    if is_of_flags(variables, key) {
        return add_words(alloc, assignment, said);
    }
    Ok(())
}

/// Whether one of the assignments is of the variable.
fn is_set(assigned: &[Assignment], key: &str) -> bool
    ensures { result ≡ list_any (is_of key.now) assigned.now }
{
    assigned
        .iter()
        .any(|assignment| assignment.key.as_str() == key)
}

/// Whether the variable's values are flags.
fn is_of_flags(variables: &[&str], key: &str) -> bool
    ensures { result ≡ is_of_flags (map (λ x. x.now) variables.now) key.now }
{
    key == "USE" || has(variables, key)
}

pub(crate) fn has(variables: &[&str], key: &str) -> bool
    ensures { result ≡ has (map (λ x. x.now) variables.now) key.now }
{
    is_among(variables, key)
}

fn is_among(variables: &[&str], key: &str) -> bool
    ensures { result ≡ list_any (λ v. bytes_eq key.now v.now) variables.now }
{
    variables.iter().any(|variable| key == *variable)
}

/// Adds the words of the assignment.
fn add_words(
    alloc: Global,
    assignment: &Assignment,
    said: &mut Vec<FlagWord>,
) -> Result<(), AllocError>
    ensures { OnOk result (said.new.items ≡ said.old.items
        ++ map (flag_word (prefix_of assignment.now.key)) (words_of assignment.now.value)) }
{
    let prefix = prefix_of(alloc, assignment.key.as_str())?;
    let found = words(alloc, assignment.value.as_str())?;
    add_all(alloc, &prefix, &found, said)
}

fn add_all(
    alloc: Global,
    prefix: &Text,
    words: &[Word],
    said: &mut Vec<FlagWord>,
) -> Result<(), AllocError>
    ensures { OnOk result (said.new.items ≡ said.old.items
        ++ map (flag_word prefix.now) (texts (map spot words.now))) }
{
    for word in words {
        said.push(FlagWord {
            prefix: prefix.try_clone()?,
            word: Text::new(alloc, word.text)?,
        })?;
    }
    Ok(())
}

/// What the names of the variable's flags begin with.
fn prefix_of(alloc: Global, key: &str) -> Result<Text, AllocError>
    ensures { IfOk result (λ t. t ≡ prefix_of key.now) }
{
    if key == "USE" {
        Text::new(alloc, "")
    } else {
        flag_of(alloc, key, "")
    }
}
