ghost use Rattle.std.specs.Prelude.{◌≡◌, ◌<◌, ◌++◌, IfOk, OnOk, [], length};
ghost use Rattle.std.specs.List.{AllByRecursion, flat_map};
ghost use Rattle.choice_law.specs.Tree.{Choice as Decisions};
ghost use Rattle.choice_tree.specs.Keys.{AreKeyed, offers_in};
ghost use Rattle.choice_tree.specs.Places.{places as places_under};
ghost use Rattle.choice_tree.specs.Seen.{place_of, places_of};
ghost use Rattle.choice_tree.specs.Views.{universe_of};
ghost use Rattle.choice_tree.specs.declared.key.Key.TheVariants.{Own, Whole};
ghost use Rattle.merge_graph.specs.Edges.{AreBetween};
ghost use Rattle.merge_edges.specs.Changes.{changes};
ghost use Rattle.merge_edges.specs.Edges.{AreEdges};
ghost use Rattle.std.specs.Option.{option_map_or};
ghost use Rattle.merge_edges.specs.Found.{HasVersion, all_edges, comer, comer_edges};
ghost use Rattle.merge_edges.specs.Found.{installed_edges, joined, line_edges, nodes_from};
ghost use Rattle.merge_edges.specs.Found.{place_at};

use crate::apart::{push_conflicts, push_guarded};
use crate::breaking::push_breaking;
use crate::coming::push_needs;
use crate::nodes::{join_all, nodes_of};
use crate::places::{all_places, comer};
use choice_tree::{Around, Choice, Key, Keyed, Place, Universe};
use merge_graph::Edge;
use pkg_state::Pkg;
use std::alloc::{AllocError, Global};

fn push_comer(
    alloc: Global,
    before: &Around<'_, '_>,
    after: &Around<'_, '_>,
    told: &Keyed,
    line: usize,
    comer: &Pkg,
    out: &mut Vec<Edge>,
) -> Result<(), AllocError>
    requires { AreKeyed Whole (offers_in (places_of before.now.places.now)) told.now.lists }
    ensures { OnOk result (out.new.items ≡ out.old.items ++
        comer_edges (places_of before.now.places.now) (places_of after.now.places.now) line
        comer.now) }
{
    push_needs(alloc, before, after, line, comer, out)?;
    push_conflicts(alloc, before, told, line, comer, out)?;
    Ok(())
}

fn push_installed(
    alloc: Global,
    before: &Around<'_, '_>,
    after: &Around<'_, '_>,
    line: usize,
    stayer: &Pkg,
    out: &mut Vec<Edge>,
) -> Result<(), AllocError>
    requires { offers_in (places_of before.now.places.now) ≡
        offers_in (places_of after.now.places.now) }
    ensures { OnOk result (out.new.items ≡ out.old.items ++
        installed_edges (places_of before.now.places.now) (places_of after.now.places.now) line
        stayer.now) }
{
    push_breaking(alloc, before, after, line, stayer, out)?;
    push_guarded(alloc, after, line, stayer, out)?;
    Ok(())
}

/// The edges of what comes on the line, if anything does.
fn push_coming(
    alloc: Global,
    before: &Around<'_, '_>,
    after: &Around<'_, '_>,
    told: &Keyed,
    line: usize,
    out: &mut Vec<Edge>,
) -> Result<(), AllocError>
    requires there { line < length after.now.places.now }
    requires told { AreKeyed Whole (offers_in (places_of before.now.places.now)) told.now.lists }
    ensures { OnOk result (out.new.items ≡ out.old.items ++ option_map_or
        (comer_edges (places_of before.now.places.now) (places_of after.now.places.now) line)
        (comer (place_at (places_of after.now.places.now) line)) []) }
{
    let place = &after.places[line];
    if let Some(comer) = comer(place) {
        push_comer(alloc, before, after, told, line, comer, out)?;
    }
    Ok(())
}

/// Those that are there for what is installed on the line, if anything is.
fn push_standing(
    alloc: Global,
    before: &Around<'_, '_>,
    after: &Around<'_, '_>,
    line: usize,
    out: &mut Vec<Edge>,
) -> Result<(), AllocError>
    requires there { line < length after.now.places.now }
    requires offers { offers_in (places_of before.now.places.now) ≡
        offers_in (places_of after.now.places.now) }
    ensures { OnOk result (out.new.items ≡ out.old.items ++ option_map_or
        (installed_edges (places_of before.now.places.now) (places_of after.now.places.now) line)
        (place_at (places_of after.now.places.now) line).offer.installed []) }
{
    let place = &after.places[line];
    if let Some(stayer) = &place.offer.installed {
        push_installed(alloc, before, after, line, stayer, out)?;
    }
    Ok(())
}

fn push_line(
    alloc: Global,
    before: &Around<'_, '_>,
    after: &Around<'_, '_>,
    told: &Keyed,
    line: usize,
    out: &mut Vec<Edge>,
) -> Result<(), AllocError>
    requires there { line < length after.now.places.now }
    requires told { AreKeyed Whole (offers_in (places_of before.now.places.now)) told.now.lists }
    requires offers { offers_in (places_of before.now.places.now) ≡
        offers_in (places_of after.now.places.now) }
    ensures { OnOk result (out.new.items ≡ out.old.items ++
        line_edges (places_of before.now.places.now) (places_of after.now.places.now) line) }
{
    push_coming(alloc, before, after, told, line, out)?;
    push_standing(alloc, before, after, line, out)?;
    Ok(())
}

/// The edges between all lines.
fn all_edges(
    alloc: Global,
    before: &Around<'_, '_>,
    after: &Around<'_, '_>,
    told: &Keyed,
) -> Result<Vec<Edge>, AllocError>
    requires told { AreKeyed Whole (offers_in (places_of before.now.places.now)) told.now.lists }
    requires offers { offers_in (places_of before.now.places.now) ≡
        offers_in (places_of after.now.places.now) }
    ensures { IfOk result (λ v. v.items ≡
        all_edges (places_of before.now.places.now) (places_of after.now.places.now)) }
{
    let mut out = Vec::new(alloc);
    for line in 0..after.places.len() {
        push_line(alloc, before, after, told, line, &mut out)?;
    }
    Ok(out)
}

/// Those between the changes of the lines.
fn edges_between(
    alloc: Global,
    before: &[Place<'_>],
    after: &[Place<'_>],
    named: &Keyed,
    told: &Keyed,
) -> Result<Vec<Edge>, AllocError>
    requires named { AreKeyed Own (offers_in (places_of before.now)) named.now.lists }
    requires told { AreKeyed Whole (offers_in (places_of before.now)) told.now.lists }
    requires offers { offers_in (places_of before.now) ≡ offers_in (places_of after.now) }
    ensures { IfOk result (λ v. v.items ≡
        flat_map (joined (nodes_from 0 (places_of after.now)))
        (all_edges (places_of before.now) (places_of after.now))) }
{
    let nodes = nodes_of(alloc, after)?;
    let before = Around::new(before, named, told);
    let after = Around::new(after, named, told);
    let edges = all_edges(alloc, &before, &after, told)?;
    join_all(alloc, &nodes, &edges)
}

/// What stands on a line has a version in form, as its type promises.
fn version_is(place: &Place<'_>)
    ensures { HasVersion (place_of place.now) }
{
    if let Some(standing) = &place.standing {
        let owner = standing.owner;
        let _ = owner.facts.id.version.text();
    }
}

/// So has what stands on all of them.
fn versions_are(places: &[Place<'_>])
    ensures { AllByRecursion HasVersion (places_of places.now) }
{
    for place in places {
        version_is(place);
    }
}

/// The edges between the changes of whatever choice has these places, where nothing is decided before.
fn edges_over(
    alloc: Global,
    universe: &Universe,
    before: &[Place<'_>],
    after: &[Place<'_>],
) -> Result<Vec<Edge>, AllocError>
    requires before { places_of before.now ≡ places_under (universe_of universe.now) [] }
    requires after { offers_in (places_of after.now) ≡ (universe_of universe.now).offers }
    ensures { IfOk result (λ v. (c : Decisions) →
        places_of after.now ≡ places_under (universe_of universe.now) c →
        AreEdges (universe_of universe.now) c v.items
        × AreBetween (length (changes (universe_of universe.now) c)) v.items) }
{
    versions_are(before);
    versions_are(after);
    let named = Keyed::new(alloc, universe, Key::Own)?;
    let told = Keyed::new(alloc, universe, Key::Whole)?;
    let edges = edges_between(alloc, before, after, &named, &told)?;
    Ok(edges)
}

/// The edges between the changes of a choice, each of which is told by its place among them.
pub fn edges_of(
    alloc: Global,
    universe: &Universe,
    choice: &Choice,
) -> Result<Vec<Edge>, AllocError>
    ensures edges { IfOk result (λ v. AreEdges (universe_of universe.now) choice.now v.items) }
    ensures between { IfOk result (λ v.
        AreBetween (length (changes (universe_of universe.now) choice.now)) v.items) }
{
    let nothing = Choice::new(alloc);
    let before = all_places(alloc, universe, &nothing)?;
    let after = all_places(alloc, universe, choice)?;
    let edges = edges_over(alloc, universe, &before, &after)?;
    Ok(edges)
}
