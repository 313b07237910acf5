ghost use Rattle.std.specs.Prelude.{◌≡◌, IfOk};
ghost use Rattle.std.specs.List.Sorted.{IsPermutation, IsSorted};
ghost use Rattle.visible_verdicts.specs.Places.{place_cmp};

use crate::place::Place;
use std::alloc::AllocError;
use std::cmp::Ordering;

/// The places in the order of candidates.
pub(crate) fn ranked(mut places: Vec<Place>) -> Result<Vec<Place>, AllocError>
    ensures moved { IfOk result (λ v. IsPermutation places.items v.items) }
    ensures sorted { IfOk result (λ v. IsSorted place_cmp v.items) }
{
    pms_version::order_is_that_of_keys();
    places.sort_by(|a, b| rank(a, b))?;
    Ok(places)
}

fn rank(a: &Place, b: &Place) -> Ordering
    ensures { result ≡ place_cmp a.now b.now }
{
    let names = a.name.as_str().cmp(b.name.as_str());
    names.then(a.id.rank(&b.id))
}
