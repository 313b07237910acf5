ghost use Rattle.std.specs.Prelude.{◌≡◌, ◌<◌, ◌++◌, IfOk, OnOk, length, map};
ghost use Rattle.choice_tree.specs.Seen.{place_of, places_of};
ghost use Rattle.choice_tree.specs.Views.{universe_of};
ghost use Rattle.merge_edges.specs.Changes.{changes};
ghost use Rattle.merge_edges.specs.Found.{all_changes, change_at, change_in};
ghost use Rattle.merge_edges.specs.Views.{change_of};

use crate::change::Change;
use crate::places::{all_places, is_changed};
use choice_tree::{Choice, Place, Universe};
use std::alloc::{AllocError, Global};

fn change_in<'a>(line: usize, place: &Place<'a>) -> Change<'a>
    ensures { change_of result ≡ change_in line (place_of place.now) }
{
    let offer = place.offer;
    Change {
        line,
        old: offer.installed.as_ref(),
        new: offer.package(offer.value(place.decided)),
    }
}

fn push_change<'a>(
    places: &[Place<'a>],
    line: usize,
    out: &mut Vec<Change<'a>>,
) -> Result<(), AllocError>
    requires { line < length places.now }
    ensures { OnOk result (map change_of out.new.items ≡
        map change_of out.old.items ++ change_at (places_of places.now) line) }
{
    let place = &places[line];
    if is_changed(place) {
        out.push(change_in(line, place))?;
    }
    Ok(())
}

fn all_changes<'a>(alloc: Global, places: &[Place<'a>]) -> Result<Vec<Change<'a>>, AllocError>
    ensures { IfOk result (λ v. map change_of v.items ≡ all_changes (places_of places.now)) }
{
    let mut out = Vec::new(alloc);
    for line in 0..places.len() {
        push_change(places, line, &mut out)?;
    }
    Ok(out)
}

/// The changes of a choice, in line order.
pub fn changes_of<'a>(
    alloc: Global,
    universe: &'a Universe,
    choice: &Choice,
) -> Result<Vec<Change<'a>>, AllocError>
    ensures { IfOk result (λ v. map change_of v.items ≡
        changes (universe_of universe.now) choice.now) }
{
    let places = all_places(alloc, universe, choice)?;
    let changes = all_changes(alloc, &places)?;
    Ok(changes)
}
