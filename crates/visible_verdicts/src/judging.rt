ghost use Rattle.std.specs.Prelude.{◌≡◌, ◌⊎◌, IfErr, IfOk, MatchResult, None, Some};
ghost use Rattle.std.specs.Option.{option_copied};
ghost use Rattle.md5_cache.specs.Entries.{CacheEntryValue};
ghost use Rattle.visible_verdicts.specs.Verdicts.{IsReason, IsRefused, IsVisible, kept_back};
ghost use Rattle.visible_verdicts.specs.Verdicts.{refusal_of};
ghost use Rattle.visible_verdicts.specs.declared.reason.Reason.{Reason as ReasonValue};
ghost use Rattle.visible_verdicts.specs.declared.reason.Refusal.TheVariants.{Hidden, Memory};

use crate::reason::{Reason, Refusal};
use crate::rules::VisibleRules;
use dep_atom::PackageId;
use md5_cache::{CacheEntry, CacheFault, read_entry};
use std::alloc::{AllocError, Global};

/// The entry of a visible candidate, whose text and whose ebuild are these; or the first reason why
/// the candidate isn't visible.
pub fn judge(
    alloc: Global,
    rules: &VisibleRules,
    id: PackageId,
    entry: &[u8],
    ebuild: Option<&[u8]>,
) -> Result<CacheEntry, Refusal>
    ensures visible { IfOk result
        (IsVisible rules.now id entry.now (option_copied ebuild.entry)) }
    ensures only { (e : CacheEntryValue) →
        IsVisible rules.now id entry.now (option_copied ebuild.entry) e →
        IfErr result (λ r. r ≡ Memory) }
    ensures reason { IfErr result
        (IsRefused rules.now id entry.now (option_copied ebuild.entry)) }
    ensures told { (reason : ReasonValue) →
        IsReason rules.now id entry.now (option_copied ebuild.entry) reason →
        MatchResult result (λ _. ⊥) (λ r. (r ≡ Hidden reason) ⊎ (r ≡ Memory)) }
{
    pms_slot::one_slot_value();
    judge_files(alloc, rules, id, entry, ebuild)
}

fn judge_files(
    alloc: Global,
    rules: &VisibleRules,
    id: PackageId,
    entry: &[u8],
    ebuild: Option<&[u8]>,
) -> Result<CacheEntry, Refusal>
    ensures visible { IfOk result
        (IsVisible rules.now id entry.now (option_copied ebuild.entry)) }
    ensures only { (e : CacheEntryValue) →
        IsVisible rules.now id entry.now (option_copied ebuild.entry) e →
        IfErr result (λ r. r ≡ Memory) }
    ensures reason { IfErr result
        (IsRefused rules.now id entry.now (option_copied ebuild.entry)) }
{
    pms_slot::one_slot_value();
    let Some(ebuild) = ebuild else {
        return Err(Refusal::Hidden(Reason::NoEbuild));
    };
    let entry = match read_entry(alloc, id, entry, ebuild) {
        Ok(entry) => entry,
        Err(fault) => return Err(refusal_of(fault)),
    };
    match kept_back(alloc, rules, &entry)? {
        None => Ok(entry),
        Some(reason) => Err(Refusal::Hidden(reason)),
    }
}

/// What keeps the package with this entry back.
fn kept_back(
    alloc: Global,
    rules: &VisibleRules,
    entry: &CacheEntry,
) -> Result<Option<Reason>, AllocError>
    ensures { IfOk result (λ r. r ≡ kept_back rules.now entry.now) }
{
    let facts = &entry.pkg.facts;
    if !rules.keywords.accepts(alloc, facts, &entry.keywords)? {
        return Ok(Some(Reason::Keyword));
    }
    if rules.masks.any(alloc, facts) && !rules.unmasks.any(alloc, facts) {
        return Ok(Some(Reason::Masked));
    }
    Ok(None)
}

fn refusal_of(fault: CacheFault) -> Refusal
    ensures { result ≡ refusal_of fault }
{
    match fault {
        CacheFault::Eapi { .. } => Refusal::Hidden(Reason::Eapi),
        CacheFault::Stale { .. } => Refusal::Hidden(Reason::Stale),
        CacheFault::NotUtf8
        | CacheFault::NoEquals { .. }
        | CacheFault::Repeated { .. }
        | CacheFault::Field { .. } => Refusal::Hidden(Reason::BadEntry),
        CacheFault::Memory => Refusal::Memory,
    }
}
