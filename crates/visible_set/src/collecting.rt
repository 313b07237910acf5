ghost use Rattle.std.specs.Prelude.{◌≡◌, ◌++◌, ◌∷◌, [], IfOk, OnOk, filter, map, not};
ghost use Rattle.visible_offers.specs.Flags.{FlagConfigValue};
ghost use Rattle.visible_offers.specs.Offered.{has_variant};
ghost use Rattle.visible_set.specs.Offers.{AreTried, kept_back, refused};

use crate::offers::{Hidden, Offers, Reason};
use pms_names::Flags;
use std::alloc::{AllocError, Global};
use visible_offers::{Candidate, FlagConfig, offer};
use visible_verdicts::Candidates;

/// The offers of these candidates, by what is configured of flags.
pub(crate) fn offers_of(
    alloc: Global,
    config: &FlagConfig,
    found: &Candidates,
    flips: u32,
) -> Result<Offers, AllocError>
    ensures implicit { IfOk result (λ o. o.implicit ≡ config.now.implicit) }
    ensures tried { IfOk result (λ o. AreTried config.now flips found.now.visible.items
        found.now.hidden.items o.candidates.items o.hidden.items) }
{
    let mut candidates = Vec::new(alloc);
    let mut hidden = all_kept_back(alloc, &found.hidden)?;
    for entry in &found.visible {
        let one = offer(alloc, config, entry, flips)?;
        add(one, &mut candidates, &mut hidden)?;
    }
    let implicit = implicit_of(config)?;
    Ok(Offers {
        implicit,
        candidates,
        hidden,
    })
}

fn implicit_of(config: &FlagConfig) -> Result<Flags, AllocError>
    ensures { IfOk result (λ set. set ≡ config.now.implicit) }
{
    config.implicit.try_clone()
}

/// Those that aren't visible.
fn all_kept_back(
    alloc: Global,
    others: &[visible_verdicts::Hidden],
) -> Result<Vec<Hidden>, AllocError>
    ensures { IfOk result (λ v. v.items ≡ map kept_back others.now) }
{
    let mut hidden = Vec::new(alloc);
    for other in others {
        hidden.push(kept_back(other)?)?;
    }
    Ok(hidden)
}

fn kept_back(other: &visible_verdicts::Hidden) -> Result<Hidden, AllocError>
    ensures { IfOk result (λ h. h ≡ kept_back other.now) }
{
    Ok(Hidden {
        id: other.id.try_clone()?,
        reason: Reason::NotVisible(other.reason),
    })
}

/// Adds the candidate to those that may come, or to those that may not.
fn add(
    one: Candidate,
    candidates: &mut Vec<Candidate>,
    hidden: &mut Vec<Hidden>,
) -> Result<(), AllocError>
    ensures candidates { OnOk result (candidates.new.items ≡
        candidates.old.items ++ filter has_variant (one ∷ [])) }
    ensures hidden { OnOk result (hidden.new.items ≡ hidden.old.items
        ++ map refused (filter (λ c. not (has_variant c)) (one ∷ []))) }
{
    if has_variant(&one) {
        candidates.push(one)?;
    } else {
        hidden.push(refused(&one)?)?;
    }
    Ok(())
}

/// Whether some setting may be chosen.
fn has_variant(one: &Candidate) -> bool
    ensures { result ≡ has_variant one.now }
{
    !one.variants.is_empty()
}

fn refused(one: &Candidate) -> Result<Hidden, AllocError>
    ensures { IfOk result (λ h. h ≡ refused one.now) }
{
    Ok(Hidden {
        id: one.offered.facts.id.try_clone()?,
        reason: Reason::RequiredUse,
    })
}
