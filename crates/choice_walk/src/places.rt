ghost use Rattle.std.specs.Prelude.{◌≡◌, IfOk};
ghost use Rattle.choice_tree.specs.Places.{places};
ghost use Rattle.choice_tree.specs.Seen.{places_of};
ghost use Rattle.choice_tree.specs.Views.{universe_of};

use crate::marks::marks;
use choice_tree::{Choice, Place, Universe};
use std::alloc::{AllocError, Global};

/// All lines under a choice.
pub(crate) fn all_places<'a>(
    alloc: Global,
    universe: &'a Universe,
    choice: &Choice,
) -> Result<Vec<Place<'a>>, AllocError>
    ensures { IfOk result (λ v. places_of v.items ≡
        places (universe_of universe.now) choice.now) }
{
    let marks = marks(alloc, choice.decisions(), universe.offers.len())?;
    let mut places = Vec::with_capacity(alloc, universe.offers.len())?;
    for (line, offer) in universe.offers.iter().enumerate() {
        let place = Place::new(alloc, offer, marks[line])?;
        places.push(place)?;
    }
    Ok(places)
}
