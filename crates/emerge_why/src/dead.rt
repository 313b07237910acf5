use crate::telling::say;
use choice_ends::{DeadEnd, Fate, Lack, Pick};
use dep_atom::{Atom, PackageId};
use pkg_state::Class;
use std::alloc::{AllocError, Global};

/// How many of its decisions are told of a choice that was tried in vain, beside the newest one.
const MOST_BESIDE: usize = 7;

/// The first choices that were tried in vain, each with what nothing closes.
pub(crate) fn push_dead(
    alloc: Global,
    lines: &mut Vec<String>,
    dead: &[DeadEnd],
) -> Result<(), AllocError> {
    if dead.is_empty() {
        return Ok(());
    }
    say(alloc, lines, "what was tried first, and why it won't do:")?;
    for end in dead {
        push_picks(alloc, lines, &end.chosen)?;
        push_lack(alloc, lines, &end.lacks)?;
    }
    Ok(())
}

/// What a choice decides, the newest decision first.
fn push_picks(alloc: Global, lines: &mut Vec<String>, chosen: &[Pick]) -> Result<(), AllocError> {
    let Some((newest, others)) = chosen.split_first() else {
        return Ok(());
    };
    let mut line = String::from_str(alloc, "  tried:")?;
    push_pick(alloc, &mut line, newest)?;
    for pick in others.iter().take(MOST_BESIDE) {
        line.push_str(",")?;
        push_pick(alloc, &mut line, pick)?;
    }
    let more = others.len().saturating_sub(MOST_BESIDE);
    if more > 0 {
        let rest = format!(in alloc; " and {more} more")?;
        line.push_str(rest.as_str())?;
    }
    lines.push(line)?;
    Ok(())
}

/// A package and what becomes of it, behind a space.
fn push_pick(alloc: Global, line: &mut String, pick: &Pick) -> Result<(), AllocError> {
    let id = pick.id.print(alloc)?;
    line.push_str(" ")?;
    line.push_str(id.as_str())?;
    line.push_str(match pick.fate {
        Fate::Comes => "",
        Fate::Goes => " goes",
        Fate::Stays => " stays",
    })
}

/// What is open of a choice, which nothing closes.
fn push_lack(alloc: Global, lines: &mut Vec<String>, lack: &Lack) -> Result<(), AllocError> {
    let line = match lack {
        Lack::Wanted(atom) => {
            let atom = atom.print(alloc)?;
            format!(in alloc; "    {atom} is asked for, and nothing that it matches can come then")
        }
        Lack::Flags(id) => {
            let id = id.print(alloc)?;
            format!(in alloc; "    the USE flags of {id} don't go together (REQUIRED_USE)")
        }
        Lack::Conflict(id, other) => return push_conflict(alloc, lines, id, other),
        Lack::Need(id, class, leaf, is_offered) => {
            return push_need(alloc, lines, id, *class, leaf, *is_offered);
        }
        Lack::Forsaken(id) => {
            let id = id.print(alloc)?;
            format!(in alloc;
                "    {id} goes only for what can't be beside it, and nothing such comes"
            )
        }
    };
    lines.push(line?)?;
    Ok(())
}

/// Two packages that can't be there together.
fn push_conflict(
    alloc: Global,
    lines: &mut Vec<String>,
    id: &PackageId,
    other: &PackageId,
) -> Result<(), AllocError> {
    let id = id.print(alloc)?;
    let other = other.print(alloc)?;
    if id.as_str() == other.as_str() {
        lines.push(format!(in alloc; "    {id} would be there in two slots, and may be in one")?)?;
        return Ok(());
    }
    lines.push(format!(in alloc; "    {id} blocks {other}")?)?;
    Ok(())
}

/// What a package needs and doesn't have.
fn push_need(
    alloc: Global,
    lines: &mut Vec<String>,
    id: &PackageId,
    class: Class,
    leaf: &Option<Atom>,
    is_offered: bool,
) -> Result<(), AllocError> {
    let id = id.print(alloc)?;
    let class = class.word();
    let Some(leaf) = leaf else {
        lines.push(format!(in alloc;
            "    {id} needs one of several packages ({class}): none of them can come then"
        )?)?;
        return Ok(());
    };
    let leaf = leaf.print(alloc)?;
    let why = if is_offered {
        "what matches can't come then"
    } else {
        "no package matches"
    };
    lines.push(format!(in alloc; "    {id} needs {leaf} ({class}): {why}")?)?;
    Ok(())
}
