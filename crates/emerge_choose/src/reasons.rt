ghost use Rattle.std.specs.Prelude.{◌≡◌, ◌++◌, IfOk, OnOk, filter, if◌then◌else◌, map};
ghost use Rattle.std.specs.Prelude.{[], ◌∷◌};
ghost use Rattle.std.specs.List.Sorted.{IsPermutation, IsSorted};
ghost use Rattle.dep_atom.specs.Match.{same_name};
ghost use Rattle.emerge_choose.specs.Reasons.{AreReasons, is_of_name, reason_rank, reasons_of};
ghost use Rattle.emerge_choose.specs.Reasons.{unmatched};

use crate::reason::{NotTaken, Reason};
use pkg_state::Pkg;
use pms_names::Name;
use std::alloc::{AllocError, Global};

fn is_same_name(name: &Name, other: &Name) -> bool
    ensures { result ≡ same_name name.now other.now }
{
    name.category == other.category && name.package == other.package
}

fn push_offered(name: &Name, pkg: &Pkg, reasons: &mut Vec<NotTaken>) -> Result<(), AllocError>
    ensures { OnOk result (reasons.new.items ≡ reasons.old.items ++
        (if is_of_name name.now (unmatched pkg.now) then unmatched pkg.now ∷ [] else [])) }
{
    let id = &pkg.facts.id;
    if is_same_name(name, &id.name) {
        let id = id.try_clone()?;
        reasons.push(NotTaken {
            id,
            reason: Reason::NotMatched,
        })?;
    }
    Ok(())
}

fn push_hidden(name: &Name, one: &NotTaken, reasons: &mut Vec<NotTaken>) -> Result<(), AllocError>
    ensures { OnOk result (reasons.new.items ≡ reasons.old.items ++
        (if is_of_name name.now one.now then one.now ∷ [] else [])) }
{
    if is_same_name(name, &one.id.name) {
        let id = one.id.try_clone()?;
        let reason = one.reason;
        reasons.push(NotTaken { id, reason })?;
    }
    Ok(())
}

fn push_all_offered(
    name: &Name,
    offered: &[Pkg],
    reasons: &mut Vec<NotTaken>,
) -> Result<(), AllocError>
    ensures { OnOk result (reasons.new.items ≡ reasons.old.items ++
        filter (is_of_name name.now) (map unmatched offered.now)) }
{
    for pkg in offered {
        push_offered(name, pkg, reasons)?;
    }
    Ok(())
}

fn push_all_hidden(
    name: &Name,
    hidden: &[NotTaken],
    reasons: &mut Vec<NotTaken>,
) -> Result<(), AllocError>
    ensures { OnOk result (reasons.new.items ≡ reasons.old.items ++
        filter (is_of_name name.now) hidden.now) }
{
    for one in hidden {
        push_hidden(name, one, reasons)?;
    }
    Ok(())
}

fn ranked(mut reasons: Vec<NotTaken>) -> Result<Vec<NotTaken>, AllocError>
    ensures moved { IfOk result (λ v. IsPermutation reasons.items v.items) }
    ensures sorted { IfOk result (λ v. IsSorted reason_rank v.items) }
{
    pms_version::order_is_that_of_keys();
    reasons.sort_by(|a, b| a.id.rank(&b.id))?;
    Ok(reasons)
}

/// The candidates of the name, by their versions, each with the reason why it isn't taken.
pub fn reasons_of(
    alloc: Global,
    name: &Name,
    offered: &[Pkg],
    hidden: &[NotTaken],
) -> Result<Vec<NotTaken>, AllocError>
    ensures { IfOk result (λ v. AreReasons name.now offered.now hidden.now v.items) }
{
    let mut reasons = Vec::new(alloc);
    push_all_offered(name, offered, &mut reasons)?;
    push_all_hidden(name, hidden, &mut reasons)?;
    ranked(reasons)
}
