ghost use Rattle.std.specs.Prelude.{◌≡◌, ◌++◌, IfOk, OnOk, true};
ghost use Rattle.std.specs.List.{flat_map};
ghost use Rattle.std.specs.Option.{option_map};
ghost use Rattle.choice_tree.specs.Candidates.{free_line, free_offer, kept, of_line, varied};
ghost use Rattle.choice_tree.specs.Seen.{places_of};
ghost use Rattle.choice_tree.specs.Shown.{candidates_of};
ghost use Rattle.choice_tree.specs.Views.{offer_of};

use crate::candidate::Candidate;
use crate::place::Place;
use crate::universe::Offer;
use crate::value::Value;
use std::alloc::{AllocError, Global};

fn push_kept<'a>(
    line: usize,
    offer: &'a Offer,
    out: &mut Vec<Candidate<'a>>,
) -> Result<(), AllocError>
    ensures { OnOk result (candidates_of out.new.items ≡
        candidates_of out.old.items ++ kept line (offer_of offer.now).installed) }
{
    if let Some(owner) = &offer.installed {
        let value = Value::Keep;
        out.push(Candidate { line, value, owner })?;
    }
    Ok(())
}

fn push_varied<'a>(
    line: usize,
    offer: &'a Offer,
    out: &mut Vec<Candidate<'a>>,
) -> Result<(), AllocError>
    ensures { OnOk result (candidates_of out.new.items ≡
        candidates_of out.old.items ++ varied line 0 (offer_of offer.now).variants) }
{
    for (place, owner) in offer.variants.iter().enumerate() {
        let value = Value::Variant(place);
        out.push(Candidate { line, value, owner })?;
    }
    Ok(())
}

/// Puts the candidates of a line behind the others: its variants, behind what is installed where
/// that may be kept.
pub(crate) fn push_line<'a>(
    keeps: bool,
    line: usize,
    offer: &'a Offer,
    out: &mut Vec<Candidate<'a>>,
) -> Result<(), AllocError>
    ensures { OnOk result (candidates_of out.new.items ≡
        candidates_of out.old.items ++ of_line keeps line (offer_of offer.now)) }
{
    if keeps {
        push_kept(line, offer, out)?;
    }
    push_varied(line, offer, out)
}

/// What is offered on a line, if there is such a line and nothing is decided of it.
pub(crate) fn free_offer<'a>(places: &[Place<'a>], line: usize) -> Option<&'a Offer>
    ensures { option_map (λ o. offer_of o.now) result ≡ free_offer (places_of places.now) line }
{
    let place = places.get(line)?;
    match place.decided {
        None => Some(place.offer),
        Some(_) => None,
    }
}

/// The candidates of those of the lines that aren't decided.
pub(crate) fn free_of<'a>(
    alloc: Global,
    places: &[Place<'a>],
    lines: &[usize],
) -> Result<Vec<Candidate<'a>>, AllocError>
    ensures { IfOk result (λ v. candidates_of v.items ≡
        flat_map (λ l. free_line true (places_of places.now) l) lines.now) }
{
    let mut out = Vec::new(alloc);
    for line in lines {
        push_free(true, places, *line, &mut out)?;
    }
    Ok(out)
}

/// Puts those of one line behind the others, if it isn't decided.
pub(crate) fn push_free<'a>(
    keeps: bool,
    places: &[Place<'a>],
    line: usize,
    out: &mut Vec<Candidate<'a>>,
) -> Result<(), AllocError>
    ensures { OnOk result (candidates_of out.new.items ≡
        candidates_of out.old.items ++ free_line keeps (places_of places.now) line) }
{
    match free_offer(places, line) {
        Some(offer) => push_line(keeps, line, offer, out),
        None => Ok(()),
    }
}
