ghost use Rattle.std.specs.Prelude.{◌≡◌, ◌++◌, OnOk};
ghost use Rattle.choice_tree.specs.Seen.{places_of};
ghost use Rattle.merge_edges.specs.Found.{class_edges, edges_to, need_edges};

use crate::needs::needed_lines;
use choice_tree::Around;
use merge_graph::Edge;
use pkg_state::{Class, Pkg};
use std::alloc::{AllocError, Global};

/// Puts edges from a line to others behind those that are there.
pub(crate) fn push_edges(
    from: usize,
    builds: bool,
    lines: &[usize],
    out: &mut Vec<Edge>,
) -> Result<(), AllocError>
    ensures { OnOk result (out.new.items ≡ out.old.items ++ edges_to from builds lines.now) }
{
    for to in lines {
        let to = *to;
        out.push(Edge { from, to, builds })?;
    }
    Ok(())
}

/// Those for a class of the build of what comes on the line, unless it holds over what is installed.
fn push_class(
    alloc: Global,
    before: &Around<'_, '_>,
    after: &Around<'_, '_>,
    line: usize,
    comer: &Pkg,
    class: Class,
    out: &mut Vec<Edge>,
) -> Result<(), AllocError>
    ensures { OnOk result (out.new.items ≡ out.old.items ++
        class_edges (places_of before.now.places.now) (places_of after.now.places.now) line
        comer.now class) }
{
    if comer.is_met(class, before) {
        return Ok(());
    }
    let lines = needed_lines(alloc, after, class, comer)?;
    push_edges(line, true, &lines, out)?;
    Ok(())
}

/// Those for what the package that comes on the line needs.
pub(crate) fn push_needs(
    alloc: Global,
    before: &Around<'_, '_>,
    after: &Around<'_, '_>,
    line: usize,
    comer: &Pkg,
    out: &mut Vec<Edge>,
) -> Result<(), AllocError>
    ensures { OnOk result (out.new.items ≡ out.old.items ++
        need_edges (places_of before.now.places.now) (places_of after.now.places.now) line
        comer.now) }
{
    push_class(alloc, before, after, line, comer, Class::Depend, out)?;
    push_class(alloc, before, after, line, comer, Class::Bdepend, out)?;
    push_class(alloc, before, after, line, comer, Class::Idepend, out)?;
    let lines = needed_lines(alloc, after, Class::Rdepend, comer)?;
    push_edges(line, false, &lines, out)?;
    Ok(())
}
