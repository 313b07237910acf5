ghost use Rattle.std.specs.Prelude.{◌≡◌, ◌<◌, ◌∷◌, ◌++◌, [], ℕ, IfNone, IfOk, IfSome, OnOk, true};
ghost use Rattle.std.specs.BTreeSet.{contains};
ghost use Rattle.std.specs.Ordering.{nat_cmp};
ghost use Rattle.dep_atom.specs.Ids.{id_text};
ghost use Rattle.choice_tree.specs.Places.{numbers};
ghost use Rattle.choice_tree.specs.Seen.{place_of};
ghost use Rattle.choice_walk.specs.Settled.{AreIn, AreKept, IsOut, lines_about, lines_around};

use choice_tree::{Keyed, Place};
use pkg_state::Pkg;
use std::alloc::{AllocError, Global};
use std::collections::BTreeSet;

/// So many lines, all of them.
pub(crate) fn all_lines(alloc: Global, count: usize) -> Result<BTreeSet<usize>, AllocError>
    ensures { IfOk result (AreIn (numbers count 0)) }
{
    let mut lines = BTreeSet::new(alloc);
    for line in 0..count {
        add(&mut lines, line)?;
    }
    Ok(lines)
}

/// The first of these lines.
pub(crate) fn first_of(lines: &BTreeSet<usize>) -> Option<usize>
    ensures there { IfSome result (λ l. contains nat_cmp lines.now l ≡ true) }
    ensures first { IfSome result (λ l. (k : ℕ) → k < l → IsOut lines.now k) }
    ensures none { IfNone result ((k : ℕ) → IsOut lines.now k) }
{
    match lines.first() {
        Some(line) => Some(*line),
        None => None,
    }
}

fn add(lines: &mut BTreeSet<usize>, line: usize) -> Result<(), AllocError>
    ensures kept { AreKept lines.old lines.new }
    ensures come { OnOk result (AreIn (line ∷ []) lines.new) }
{
    lines.insert(line)?;
    Ok(())
}

fn add_all(lines: &mut BTreeSet<usize>, more: &[usize]) -> Result<(), AllocError>
    ensures kept { AreKept lines.old lines.new }
    ensures come { OnOk result (AreIn more.now lines.new) }
{
    for line in more {
        add(lines, *line)?;
    }
    Ok(())
}

fn add_about(
    lines: &mut BTreeSet<usize>,
    leaves: &Keyed,
    texts: &Keyed,
    owner: &Pkg,
    text: &str,
) -> Result<(), AllocError>
    requires { text.now ≡ id_text owner.now.facts.id }
    ensures kept { AreKept lines.old lines.new }
    ensures come { OnOk result
        (AreIn (lines_about leaves.now.lists texts.now.lists owner.now) lines.new) }
{
    add_all(lines, leaves.get(owner.facts.id.name.package.text()))?;
    add_all(lines, texts.get(text))?;
    Ok(())
}

/// Adds the lines that what stands there may concern.
fn add_around(
    lines: &mut BTreeSet<usize>,
    leaves: &Keyed,
    texts: &Keyed,
    place: &Place<'_>,
) -> Result<(), AllocError>
    ensures kept { AreKept lines.old lines.new }
    ensures come { OnOk result (AreIn
        (lines_around leaves.now.lists texts.now.lists (place_of place.now)) lines.new) }
{
    match &place.standing {
        Some(standing) => {
            let text = standing.text.as_str();
            add_about(lines, leaves, texts, standing.owner, text)
        }
        None => Ok(()),
    }
}

/// Adds a line, and those that its place before and afterwards may concern.
pub(crate) fn unsettle(
    lines: &mut BTreeSet<usize>,
    leaves: &Keyed,
    texts: &Keyed,
    line: usize,
    before: &Place<'_>,
    after: &Place<'_>,
) -> Result<(), AllocError>
    ensures kept { AreKept lines.old lines.new }
    ensures come { OnOk result (AreIn
        (line ∷ (lines_around leaves.now.lists texts.now.lists (place_of before.now)
        ++ lines_around leaves.now.lists texts.now.lists (place_of after.now))) lines.new) }
{
    add(lines, line)?;
    add_around(lines, leaves, texts, before)?;
    add_around(lines, leaves, texts, after)?;
    Ok(())
}
