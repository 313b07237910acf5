ghost use Rattle.std.specs.Prelude.{◌≡◌, ◌++◌, OnOk};
ghost use Rattle.std.specs.List.{flat_map};
ghost use Rattle.choice_tree.specs.Keys.{offers_in};
ghost use Rattle.choice_tree.specs.Seen.{places_of};
ghost use Rattle.pkg_state.specs.declared.class.Class.TheVariants.{Rdepend};
ghost use Rattle.merge_edges.specs.Found.{breaks_in, broken_edges, needed_lines, saving_edges};

use crate::alone::Alone;
use crate::coming::push_edges;
use crate::needs::needed_lines;
use crate::places::is_changed_at;
use choice_tree::Around;
use merge_graph::Edge;
use pkg_state::{Class, Pkg};
use std::alloc::{AllocError, Global};

/// Whether the change of the line alone takes from the package what it needs at run time.
fn breaks_in(before: &Around<'_, '_>, after: &Around<'_, '_>, line: usize, stayer: &Pkg) -> bool
    requires { offers_in (places_of before.now.places.now) ≡
        offers_in (places_of after.now.places.now) }
    ensures { result ≡ breaks_in (places_of before.now.places.now)
        (places_of after.now.places.now) stayer.now line }
{
    if !is_changed_at(after.places, line) {
        return false;
    }
    let alone = Alone {
        before,
        after,
        line,
    };
    !stayer.is_met(Class::Rdepend, &alone)
}

/// What the line waits for where its change alone would break what is installed on the other line.
fn push_saving(
    alloc: Global,
    after: &Around<'_, '_>,
    own: usize,
    stayer: &Pkg,
    line: usize,
    out: &mut Vec<Edge>,
) -> Result<(), AllocError>
    ensures { OnOk result (out.new.items ≡ out.old.items ++
        saving_edges (places_of after.now.places.now) own stayer.now line) }
{
    if is_changed_at(after.places, own) {
        push_edges(line, false, &[own], out)?;
        return Ok(());
    }
    let lines = needed_lines(alloc, after, Class::Rdepend, stayer)?;
    push_edges(line, false, &lines, out)?;
    Ok(())
}

fn push_broken(
    alloc: Global,
    before: &Around<'_, '_>,
    after: &Around<'_, '_>,
    own: usize,
    stayer: &Pkg,
    line: usize,
    out: &mut Vec<Edge>,
) -> Result<(), AllocError>
    requires { offers_in (places_of before.now.places.now) ≡
        offers_in (places_of after.now.places.now) }
    ensures { OnOk result (out.new.items ≡ out.old.items ++
        broken_edges (places_of before.now.places.now) (places_of after.now.places.now) own
        stayer.now line) }
{
    if breaks_in(before, after, line, stayer) {
        push_saving(alloc, after, own, stayer, line, out)?;
    }
    Ok(())
}

/// The edges of those lines whose change alone would break what is installed on this one.
pub(crate) fn push_breaking(
    alloc: Global,
    before: &Around<'_, '_>,
    after: &Around<'_, '_>,
    own: usize,
    stayer: &Pkg,
    out: &mut Vec<Edge>,
) -> Result<(), AllocError>
    requires { offers_in (places_of before.now.places.now) ≡
        offers_in (places_of after.now.places.now) }
    ensures { OnOk result (out.new.items ≡ out.old.items ++
        flat_map (broken_edges (places_of before.now.places.now) (places_of after.now.places.now)
        own stayer.now) (needed_lines (places_of before.now.places.now) Rdepend stayer.now)) }
{
    let lines = needed_lines(alloc, before, Class::Rdepend, stayer)?;
    for line in &lines {
        push_broken(alloc, before, after, own, stayer, *line, out)?;
    }
    Ok(())
}
