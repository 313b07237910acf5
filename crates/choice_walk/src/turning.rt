ghost use Rattle.std.specs.Prelude.{◌≡◌, OnErr, OnOk};
ghost use Rattle.std.specs.Option.{option_map};
ghost use Rattle.choice_tree.specs.Keys.{AreKeyed, offers_in};
ghost use Rattle.choice_tree.specs.Places.{with_decided};
ghost use Rattle.choice_tree.specs.Seen.{places_of};
ghost use Rattle.choice_tree.specs.declared.key.Key.TheVariants.{Leaf, Whole};
ghost use Rattle.choice_tree.specs.Views.{value_of};
ghost use Rattle.choice_walk.specs.Settled.{AreSettled};

use crate::settling::unsettle;
use choice_tree::{Keyed, Place, Value};
use std::alloc::{AllocError, Global};
use std::collections::BTreeSet;

/// Puts another decision on a line, if there is such a line. Those that this may concern come to
/// the lines that may have something open.
pub(crate) fn turn(
    alloc: Global,
    places: &mut Vec<Place<'_>>,
    unsettled: &mut BTreeSet<usize>,
    leaves: &Keyed,
    texts: &Keyed,
    line: usize,
    decided: Option<Value>,
) -> Result<(), AllocError>
    requires leaves { AreKeyed Leaf (offers_in (places_of places.old.items)) leaves.now.lists }
    requires texts { AreKeyed Whole (offers_in (places_of places.old.items)) texts.now.lists }
    requires settled { AreSettled places.old.items unsettled.old }
    ensures settled { AreSettled places.new.items unsettled.new }
    ensures offers { offers_in (places_of places.new.items) ≡
        offers_in (places_of places.old.items) }
    ensures done { OnOk result (places_of places.new.items ≡
        with_decided (places_of places.old.items) line (option_map value_of decided)) }
    ensures kept { OnErr result (places.new.items ≡ places.old.items) }
{
    if line >= places.len() || places[line].decided == decided {
        return Ok(());
    }
    let offer = places[line].offer;
    let place = Place::new(alloc, offer, decided)?;
    unsettle(unsettled, leaves, texts, line, &places[line], &place)?;
    places[line] = place;
    Ok(())
}
