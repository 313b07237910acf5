ghost use Rattle.std.specs.Prelude.{◌≡◌, ◌++◌, IfOk, OnOk, map};
ghost use Rattle.std.specs.Option.{option_map};
ghost use Rattle.pkg_state.specs.Package.{Package};
ghost use Rattle.choice_law.specs.Universe.{as_list};
ghost use Rattle.merge_edges.specs.Views.{change_of};
ghost use Rattle.merge_groups.specs.Grouped.{named_at, side_at, side_of, those_at, told_at};

use crate::change::Change;
use dep_atom::PackageId;
use merge_edges::Change as LineChange;
use pkg_state::Pkg;
use std::alloc::{AllocError, Global};

fn side_of<'a>(side: Change, change: &LineChange<'a>) -> Option<&'a Pkg>
    ensures { option_map (λ p. p.now) result ≡ side_of side (change_of change.now) }
{
    match side {
        Change::Removal => change.old,
        Change::Addition => change.new,
    }
}

fn side_at<'a>(side: Change, changes: &[LineChange<'a>], place: usize) -> Option<&'a Pkg>
    ensures { option_map (λ p. p.now) result ≡ side_at side (map change_of changes.now) place }
{
    match changes.get(place) {
        Some(change) => side_of(side, change),
        None => None,
    }
}

fn told_at<'a>(changes: &[LineChange<'a>], place: usize) -> Option<&'a Pkg>
    ensures { option_map (λ p. p.now) result ≡ told_at (map change_of changes.now) place }
{
    match changes.get(place) {
        Some(change) => change.new.or(change.old),
        None => None,
    }
}

/// Puts a package behind others, if there is one.
fn push_if_any<'a>(found: Option<&'a Pkg>, out: &mut Vec<&'a Pkg>) -> Result<(), AllocError>
    ensures { OnOk result (map (λ p. p.now) out.new.items ≡ map (λ p. p.now) out.old.items ++
        as_list (option_map (λ p. p.now) found.entry)) }
{
    if let Some(one) = found {
        out.push(one)?;
    }
    Ok(())
}

/// What goes with the changes at these places, or what comes.
pub(crate) fn those_at<'a>(
    alloc: Global,
    side: Change,
    changes: &[LineChange<'a>],
    places: &[usize],
) -> Result<Vec<&'a Pkg>, AllocError>
    ensures { IfOk result (λ v. map (λ p. p.now) v.items ≡
        those_at side (map change_of changes.now) places.now) }
{
    let mut out = Vec::new(alloc);
    for place in places {
        push_if_any(side_at(side, changes, *place), &mut out)?;
    }
    Ok(out)
}

/// The packages by which the changes at these places are told.
pub(crate) fn named_at(
    alloc: Global,
    changes: &[LineChange<'_>],
    places: &[usize],
) -> Result<Vec<PackageId>, AllocError>
    ensures { IfOk result (λ v. v.items ≡ named_at (map change_of changes.now) places.now) }
{
    let mut out = Vec::new(alloc);
    for place in places {
        if let Some(one) = told_at(changes, *place) {
            out.push(one.facts.id.try_clone()?)?;
        }
    }
    Ok(out)
}
