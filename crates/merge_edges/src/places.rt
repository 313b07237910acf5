ghost use Rattle.std.specs.Prelude.{◌≡◌, IfOk};
ghost use Rattle.std.specs.Option.{option_map};
ghost use Rattle.choice_law.specs.Universe.{is_new};
ghost use Rattle.choice_tree.specs.Places.{places, value_in};
ghost use Rattle.choice_tree.specs.Seen.{place_of, places_of};
ghost use Rattle.choice_tree.specs.Views.{offer_of, universe_of, value_of};
ghost use Rattle.merge_edges.specs.Changes.{is_change};
ghost use Rattle.merge_edges.specs.Found.{arriving, comer, is_changed, place_at};

use choice_tree::{Choice, Offer, Place, Universe, Value};
use pkg_state::Pkg;
use std::alloc::{AllocError, Global};

/// All lines under a choice.
pub(crate) fn all_places<'a>(
    alloc: Global,
    universe: &'a Universe,
    choice: &Choice,
) -> Result<Vec<Place<'a>>, AllocError>
    ensures { IfOk result (λ v. places_of v.items ≡
        places (universe_of universe.now) choice.now) }
{
    let mut places = Vec::with_capacity(alloc, universe.offers.len())?;
    for (line, offer) in universe.offers.iter().enumerate() {
        let place = Place::new(alloc, offer, choice.decided(line))?;
        places.push(place)?;
    }
    Ok(places)
}

fn is_change(offer: &Offer, value: Value) -> bool
    ensures { result ≡ is_change (offer_of offer.now) (value_of value) }
{
    match value {
        Value::Keep => false,
        Value::Absent => offer.installed.is_some(),
        Value::Variant(_) => true,
    }
}

/// Whether the line changes.
pub(crate) fn is_changed(place: &Place<'_>) -> bool
    ensures { result ≡ is_changed (place_of place.now) }
{
    is_change(place.offer, place.offer.value(place.decided))
}

/// The same of the line at this place.
pub(crate) fn is_changed_at(places: &[Place<'_>], line: usize) -> bool
    ensures { result ≡ is_changed (place_at (places_of places.now) line) }
{
    line < places.len() && is_changed(&places[line])
}

fn arriving(offer: &Offer, value: Value) -> Option<&Pkg>
    ensures { option_map (λ p. p.now) result ≡ arriving (offer_of offer.now) (value_of value) }
{
    match value {
        Value::Keep | Value::Absent => None,
        Value::Variant(at) => offer.variants.get(at),
    }
}

/// What comes on the line.
pub(crate) fn comer<'a>(place: &Place<'a>) -> Option<&'a Pkg>
    ensures { option_map (λ p. p.now) result ≡ comer (place_of place.now) }
{
    arriving(place.offer, place.offer.value(place.decided))
}

fn is_coming(place: &Place<'_>) -> bool
    ensures { result ≡ is_new (value_in (place_of place.now)) }
{
    match place.offer.value(place.decided) {
        Value::Variant(_) => true,
        Value::Keep | Value::Absent => false,
    }
}

/// Whether a package comes on the line at this place.
pub(crate) fn is_coming_at(places: &[Place<'_>], line: usize) -> bool
    ensures { result ≡ is_new (value_in (place_at (places_of places.now) line)) }
{
    line < places.len() && is_coming(&places[line])
}
