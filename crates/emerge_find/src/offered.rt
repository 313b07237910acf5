ghost use Rattle.std.specs.Prelude.{◌≡◌, IfOk, map};
ghost use Rattle.law_commit.specs.Lit.{packages_of};
ghost use Rattle.emerge_find.specs.Choices.{bare_of, not_taken, of_hidden, reason_of, tried_of};

use emerge_choose::{NotTaken, Reason};
use pkg_state::Pkg;
use pms_names::Flags;
use run_opening::lit;
use std::alloc::{AllocError, Global};
use vdb_record::Installed;
use visible_offers::Candidate;
use visible_set::Hidden;

/// Of each candidate the package with just the implicit flags, and its variants.
#[derive(Drop)]
pub(crate) struct Parted {
    pub(crate) offered: Vec<Pkg>,
    pub(crate) tried: Vec<choice_universe::Candidate>,
}

pub(crate) fn parts_of(alloc: Global, candidates: Vec<Candidate>) -> Result<Parted, AllocError>
    ensures offered { IfOk result (λ p. p.offered.items ≡ map bare_of candidates.items) }
    ensures tried { IfOk result (λ p. p.tried.items ≡ map tried_of candidates.items) }
{
    let mut offered = Vec::new(alloc);
    let mut tried = Vec::new(alloc);
    for candidate in candidates {
        offered.push(candidate.offered)?;
        tried.push(choice_universe::Candidate {
            variants: candidate.variants,
        })?;
    }
    Ok(Parted { offered, tried })
}

/// The candidates that may not come, as they are told.
pub(crate) fn not_taken(alloc: Global, hidden: Vec<Hidden>) -> Result<Vec<NotTaken>, AllocError>
    ensures { IfOk result (λ v. v.items ≡ map not_taken hidden.items) }
{
    let mut told = Vec::new(alloc);
    for one in hidden {
        told.push(NotTaken {
            id: one.id,
            reason: reason_of(one.reason),
        })?;
    }
    Ok(told)
}

fn reason_of(reason: visible_set::Reason) -> Reason
    ensures { result ≡ reason_of reason }
{
    match reason {
        visible_set::Reason::NotVisible(reason) => of_hidden(reason),
        visible_set::Reason::RequiredUse => Reason::RequiredUse,
    }
}

fn of_hidden(reason: visible_verdicts::Reason) -> Reason
    ensures { result ≡ of_hidden reason }
{
    match reason {
        visible_verdicts::Reason::NoEbuild => Reason::NoEbuild,
        visible_verdicts::Reason::Eapi => Reason::Eapi,
        visible_verdicts::Reason::Stale => Reason::Stale,
        visible_verdicts::Reason::BadEntry => Reason::BadEntry,
        visible_verdicts::Reason::Keyword => Reason::Keyword,
        visible_verdicts::Reason::Masked => Reason::Masked,
    }
}

/// Copies of the packages, with these flags on beside their own.
pub(crate) fn all_lit(
    alloc: Global,
    packages: &[Installed],
    implicit: &Flags,
) -> Result<Vec<Pkg>, AllocError>
    ensures { IfOk result (λ v. v.items ≡ packages_of implicit.now packages.now) }
{
    let mut copies = Vec::with_capacity(alloc, packages.len())?;
    for package in packages {
        copies.push(lit(&package.pkg, implicit)?)?;
    }
    Ok(copies)
}
