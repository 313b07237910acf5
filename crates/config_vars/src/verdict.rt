ghost use Rattle.std.specs.Prelude.{◌≡◌, ◌↔◌, true, IfErr, IfOk, IsTrue, MatchBool};
ghost use Rattle.std.specs.Prelude.{MatchOption, OnOk};
ghost use Rattle.std.specs.Prelude.{bytes_eq, codes, map};
ghost use Rattle.std.specs.List.{list_any};
ghost use Rattle.pms_names.specs.Flags.{has};
ghost use Rattle.pms_names.specs.Names.{IsName};
ghost use Rattle.pms_names.specs.declared.kind.Kind.TheVariants.{Flag};
ghost use Rattle.config_vars.specs.Judged.{AreGood, AreGoodIn, AreItemsOf, AreWordsOf};
ghost use Rattle.config_vars.specs.Judged.{FirstFault, IsBad, IsBadAt, IsFine, IsGood, IsGoodFile};
ghost use Rattle.config_vars.specs.Values.{is_of};
ghost use Rattle.config_vars.specs.declared.fault.VarFault.TheVariants.{Memory};

use crate::fault::VarFault;
use crate::grammar::{Grammar, are_items_of, are_words_of};
use crate::stack::expanded;
use crate::vars::{FileVars, is_of};
use config_text::Assignment;
use pms_names::Flag;
use std::alloc::{AllocError, Global};

/// Judges the values of the files, which stand in the order in which they are read: those of USE, of
/// the variables that are expanded, of USE_EXPAND, USE_EXPAND_IMPLICIT and ARCH. What a later
/// assignment of the same file replaces isn't judged.
pub fn judge(alloc: Global, files: &[FileVars]) -> Result<(), VarFault>
    ensures good { OnOk result (AreGood files.now) }
    ensures only { AreGood files.now → IfErr result (λ e. e ≡ Memory) }
    ensures fault { IfErr result (FirstFault files.now) }
{
    let variables = expanded(alloc, files)?;
    for file in files {
        if let Some(line) = bad_line_in(alloc, &variables, file)? {
            let path = file.path.try_clone()?;
            return Err(VarFault::Value { path, line });
        }
    }
    Ok(())
}

/// The line at which the file isn't good, where these variables are expanded.
fn bad_line_in(
    alloc: Global,
    variables: &[&str],
    file: &FileVars,
) -> Result<Option<u32>, AllocError>
    ensures { IfOk result (λ r. MatchOption r (IsGoodFile (map (λ x. x.now) variables.now) file.now)
        (IsBadAt (map (λ x. x.now) variables.now) file.now.assigned.items)) }
{
    bad_line(alloc, variables, &file.assigned)
}

/// The line of the first of the assignments that counts and isn't good.
#[tactic(auto, using(crate::proofs::Judging::bad_stop, crate::proofs::Judging::ended))]
fn bad_line(
    alloc: Global,
    variables: &[&str],
    assigned: &[Assignment],
) -> Result<Option<u32>, AllocError>
    ensures { IfOk result (λ r. MatchOption r
        (AreGoodIn (map (λ x. x.now) variables.now) assigned.now)
        (IsBadAt (map (λ x. x.now) variables.now) assigned.now)) }
{
    let mut rest = assigned;
    while let Some((assignment, behind)) = rest.split_first() {
        let bad = is_bad(alloc, variables, assignment, behind)?;
        if bad {
            return Ok(Some(assignment.line));
        }
        rest = behind;
    }
    Ok(None)
}

/// Whether the assignment isn't good and none of those behind it replaces it.
#[tactic(auto, using(crate::proofs::Judging::by_set))]
fn is_bad(
    alloc: Global,
    variables: &[&str],
    assignment: &Assignment,
    behind: &[Assignment],
) -> Result<bool, AllocError>
    ensures { IfOk result (λ bad. MatchBool bad
        (IsBad (map (λ x. x.now) variables.now) assignment.now behind.now)
        (IsFine (map (λ x. x.now) variables.now) assignment.now behind.now)) }
{
    let good = is_good(alloc, variables, assignment)?;
    if good {
        Ok(false)
    } else {
        Ok(!is_set(behind, assignment.key.as_str()))
    }
}

/// Whether one of the assignments is of the variable.
fn is_set(assigned: &[Assignment], key: &str) -> bool
    ensures { result ≡ list_any (is_of key.now) assigned.now }
{
    assigned.iter().any(|assignment| is_of(assignment, key))
}

fn is_good(alloc: Global, variables: &[&str], assignment: &Assignment) -> Result<bool, AllocError>
    ensures { IfOk result (λ good. IsTrue good ↔
        IsGood (map (λ x. x.now) variables.now) assignment.now) }
{
    let uses = are_under(alloc, assignment, "USE", Grammar::Changes)?;
    let expand = are_under(alloc, assignment, "USE_EXPAND", Grammar::Keys)?;
    let implicit = are_under(alloc, assignment, "USE_EXPAND_IMPLICIT", Grammar::Keys)?;
    let items = are_items(alloc, variables, assignment)?;
    Ok(uses && expand && implicit && is_arch(assignment) && items)
}

/// Whether the words of the value are those of this grammar, where it is one of the variable.
fn are_under(
    alloc: Global,
    assignment: &Assignment,
    key: &str,
    grammar: Grammar,
) -> Result<bool, AllocError>
    ensures { IfOk result (λ good. IsTrue good ↔
        (is_of key.now assignment.now ≡ true → AreWordsOf grammar assignment.now.value)) }
{
    if is_of(assignment, key) {
        are_words_of(alloc, grammar, assignment.value.as_str())
    } else {
        Ok(true)
    }
}

/// Whether the value is a flag, where it is one of ARCH.
fn is_arch(assignment: &Assignment) -> bool
    ensures { IsTrue result ↔ (is_of (codes "ARCH") assignment.now ≡ true →
        IsName Flag assignment.now.value) }
{
    !is_of(assignment, "ARCH") || Flag::is_one(assignment.value.as_str().as_bytes())
}

/// Whether the words of the value make flags, where it is one of an expanded variable.
fn are_items(alloc: Global, variables: &[&str], assignment: &Assignment) -> Result<bool, AllocError>
    ensures { IfOk result (λ good. IsTrue good ↔
        (has (map (λ x. x.now) variables.now) assignment.now.key ≡ true →
        AreItemsOf assignment.now.key assignment.now.value)) }
{
    let key = assignment.key.as_str();
    if has(variables, key) {
        are_items_of(alloc, key, assignment.value.as_str())
    } else {
        Ok(true)
    }
}

fn has(variables: &[&str], key: &str) -> bool
    ensures { result ≡ has (map (λ x. x.now) variables.now) key.now }
{
    is_among(variables, key)
}

fn is_among(variables: &[&str], key: &str) -> bool
    ensures { result ≡ list_any (λ v. bytes_eq key.now v.now) variables.now }
{
    variables.iter().any(|variable| key == *variable)
}
