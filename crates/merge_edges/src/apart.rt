ghost use Rattle.std.specs.Prelude.{◌≡◌, ◌&&◌, ◌++◌, IfOk, OnOk, bytes_eq, false, map, true};
ghost use Rattle.std.specs.List.{flat_map};
ghost use Rattle.dep_atom.specs.Ids.{id_text};
ghost use Rattle.dep_atom.specs.Values.{atom_value};
ghost use Rattle.choice_tree.specs.Blocks.{blocks_of};
ghost use Rattle.choice_tree.specs.Keys.{AreKeyed, offers_in};
ghost use Rattle.choice_law.specs.Universe.{is_new};
ghost use Rattle.choice_tree.specs.Places.{is_one, package_in, value_in};
ghost use Rattle.choice_tree.specs.Seen.{places_of};
ghost use Rattle.choice_tree.specs.declared.key.Key.TheVariants.{Whole};
ghost use Rattle.merge_edges.specs.Found.{apart_edges, barred_edges, edges_from, edges_to};
ghost use Rattle.merge_edges.specs.Found.{guarded_edges, hit_comers, hit_lines, is_hit};
ghost use Rattle.merge_edges.specs.Found.{other_lines};
ghost use Rattle.merge_edges.specs.Found.{place_at, told_lines};

use crate::coming::push_edges;
use crate::places::is_coming_at;
use crate::stander::is_hit;
use choice_tree::{Around, Keyed, Place};
use dep_atom::Atom;
use merge_graph::Edge;
use pkg_state::{Class, Pkg};
use plan_lives::{barring_blocks, running_blocks};
use pms_names::Flags;
use std::alloc::{AllocError, Global};

/// The lines whose package the atom matches.
fn hit_lines(
    alloc: Global,
    around: &Around<'_, '_>,
    asker: &Flags,
    atom: &Atom,
) -> Result<Vec<usize>, AllocError>
    ensures { IfOk result (λ v. v.items ≡
        hit_lines (places_of around.now.places.now) asker.now (atom_value atom.now)) }
{
    let mut hit = Vec::new(alloc);
    for line in around.lines_named(atom.name.package.text()) {
        if is_hit(around.places, *line, asker, atom) {
            hit.push(*line)?;
        }
    }
    Ok(hit)
}

/// Whether a package comes on the line that the atom matches.
fn is_coming_hit(places: &[Place<'_>], line: usize, asker: &Flags, atom: &Atom) -> bool
    ensures { result ≡ (is_new (value_in (place_at (places_of places.now) line))
        && is_hit (places_of places.now) asker.now (atom_value atom.now) line) }
{
    is_coming_at(places, line) && is_hit(places, line, asker, atom)
}

/// The lines on which a package comes that the atom matches.
fn hit_comers(
    alloc: Global,
    around: &Around<'_, '_>,
    asker: &Flags,
    atom: &Atom,
) -> Result<Vec<usize>, AllocError>
    ensures { IfOk result (λ v. v.items ≡
        hit_comers (places_of around.now.places.now) asker.now (atom_value atom.now)) }
{
    let mut hit = Vec::new(alloc);
    for line in around.lines_named(atom.name.package.text()) {
        if is_coming_hit(around.places, *line, asker, atom) {
            hit.push(*line)?;
        }
    }
    Ok(hit)
}

fn is_told(places: &[Place<'_>], line: usize, text: &str) -> bool
    ensures { result ≡ is_one (λ q. bytes_eq text.now (id_text q.facts.id))
        (package_in (place_at (places_of places.now) line)) }
{
    if line >= places.len() {
        return false;
    }
    match &places[line].standing {
        Some(standing) => text == standing.text.as_str(),
        None => false,
    }
}

/// The lines whose package has this text.
fn told_lines(
    alloc: Global,
    places: &[Place<'_>],
    told: &Keyed,
    text: &str,
) -> Result<Vec<usize>, AllocError>
    requires { AreKeyed Whole (offers_in (places_of places.now)) told.now.lists }
    ensures { IfOk result (λ v. v.items ≡ told_lines (places_of places.now) text.now) }
{
    let mut lines = Vec::new(alloc);
    for line in told.get(text) {
        if is_told(places, *line, text) {
            lines.push(*line)?;
        }
    }
    Ok(lines)
}

fn other_lines(alloc: Global, line: usize, lines: &[usize]) -> Result<Vec<usize>, AllocError>
    ensures { IfOk result (λ v. v.items ≡ other_lines line lines.now) }
{
    let mut others = Vec::new(alloc);
    for other in lines {
        if line != *other {
            others.push(*other)?;
        }
    }
    Ok(others)
}

/// The blocks of what comes, those of its build among them.
fn comer_blocks(alloc: Global, comer: &Pkg) -> Result<Vec<&Atom>, AllocError>
    ensures { IfOk result (λ v. map (λ a. atom_value a.now) v.items ≡ blocks_of true comer.now) }
{
    let mut blocks = Vec::new(alloc);
    comer.push_blocks(alloc, Class::Rdepend, &mut blocks)?;
    comer.push_blocks(alloc, Class::Pdepend, &mut blocks)?;
    comer.push_blocks(alloc, Class::Depend, &mut blocks)?;
    comer.push_blocks(alloc, Class::Bdepend, &mut blocks)?;
    comer.push_blocks(alloc, Class::Idepend, &mut blocks)?;
    Ok(blocks)
}

/// The edges to what the package that comes on the line can't stand beside.
fn push_apart(
    alloc: Global,
    before: &Around<'_, '_>,
    told: &Keyed,
    line: usize,
    comer: &Pkg,
    out: &mut Vec<Edge>,
) -> Result<(), AllocError>
    requires { AreKeyed Whole (offers_in (places_of before.now.places.now)) told.now.lists }
    ensures { OnOk result (out.new.items ≡ out.old.items ++
        apart_edges (places_of before.now.places.now) line comer.now) }
{
    let blocks = comer_blocks(alloc, comer)?;
    push_hits(alloc, before, line, comer, &blocks, out)?;
    let text = comer.facts.id.print(alloc)?;
    let lines = told_lines(alloc, before.places, told, text.as_str())?;
    push_edges(line, false, &lines, out)?;
    Ok(())
}

fn push_hits(
    alloc: Global,
    before: &Around<'_, '_>,
    line: usize,
    comer: &Pkg,
    blocks: &[&Atom],
    out: &mut Vec<Edge>,
) -> Result<(), AllocError>
    ensures { OnOk result (out.new.items ≡ out.old.items ++
        flat_map (λ a. edges_to line false
        (hit_lines (places_of before.now.places.now) comer.now.facts.enabled a))
        (map (λ a. atom_value a.now) blocks.now)) }
{
    for &atom in blocks {
        let lines = hit_lines(alloc, before, &comer.facts.enabled, atom)?;
        push_edges(line, false, &lines, out)?;
    }
    Ok(())
}

/// .. and to what bars it.
fn push_barred(
    alloc: Global,
    before: &Around<'_, '_>,
    line: usize,
    comer: &Pkg,
    out: &mut Vec<Edge>,
) -> Result<(), AllocError>
    ensures { OnOk result (out.new.items ≡ out.old.items ++
        barred_edges (places_of before.now.places.now) line comer.now) }
{
    let blocks = barring_blocks(alloc, comer)?;
    for &atom in &blocks {
        let hit = hit_lines(alloc, before, &comer.facts.enabled, atom)?;
        let others = other_lines(alloc, line, &hit)?;
        push_edges(line, true, &others, out)?;
    }
    Ok(())
}

fn push_edges_from(lines: &[usize], to: usize, out: &mut Vec<Edge>) -> Result<(), AllocError>
    ensures { OnOk result (out.new.items ≡ out.old.items ++
        edges_from to lines.now) }
{
    for from in lines {
        let from = *from;
        let builds = false;
        out.push(Edge { from, to, builds })?;
    }
    Ok(())
}

/// The edges of what comes and is kept out by what is installed on the line.
pub(crate) fn push_guarded(
    alloc: Global,
    after: &Around<'_, '_>,
    own: usize,
    goer: &Pkg,
    out: &mut Vec<Edge>,
) -> Result<(), AllocError>
    ensures { OnOk result (out.new.items ≡ out.old.items ++
        guarded_edges (places_of after.now.places.now) own goer.now) }
{
    let blocks = running_blocks(alloc, goer)?;
    for &atom in &blocks {
        let lines = hit_comers(alloc, after, &goer.facts.enabled, atom)?;
        push_edges_from(&lines, own, out)?;
    }
    Ok(())
}

/// The edges of what comes on the line to what keeps it out, or is kept out by it.
pub(crate) fn push_conflicts(
    alloc: Global,
    before: &Around<'_, '_>,
    told: &Keyed,
    line: usize,
    comer: &Pkg,
    out: &mut Vec<Edge>,
) -> Result<(), AllocError>
    requires { AreKeyed Whole (offers_in (places_of before.now.places.now)) told.now.lists }
    ensures { OnOk result (out.new.items ≡ out.old.items ++
        (apart_edges (places_of before.now.places.now) line comer.now ++
        barred_edges (places_of before.now.places.now) line comer.now)) }
{
    push_apart(alloc, before, told, line, comer, out)?;
    push_barred(alloc, before, line, comer, out)?;
    Ok(())
}
