ghost use Rattle.std.specs.Prelude.{◌≡◌, IfOk, filter, get_or, not, true};
ghost use Rattle.dep_atom.specs.Ids.{id_text};
ghost use Rattle.dep_atom.specs.Match.{value_matches};
ghost use Rattle.dep_atom.specs.Values.{atom_value};
ghost use Rattle.choice_law.specs.Universe.{conflicts};
ghost use Rattle.choice_tree.specs.Open.{opposes};
ghost use Rattle.choice_tree.specs.Places.{no_place};
ghost use Rattle.choice_tree.specs.Seen.{places_of};
ghost use Rattle.choice_tree.specs.Shown.{candidates_of};

use crate::candidate::Candidate;
use crate::opposing::conflict;
use crate::place::Place;
use crate::places::opposes;
use crate::standing::Standing;
use dep_atom::Atom;
use pkg_state::Pkg;
use pms_names::Flags;
use std::alloc::{AllocError, Global};

/// The candidates that the atom matches.
pub(crate) fn matching<'a>(
    alloc: Global,
    candidates: &[Candidate<'a>],
    atom: &Atom,
    asker: &Flags,
) -> Result<Vec<Candidate<'a>>, AllocError>
    ensures { IfOk result (λ v. candidates_of v.items ≡
        filter (λ x. value_matches (atom_value atom.now) x.is.facts asker.now)
        (candidates_of candidates.now)) }
{
    let mut out = Vec::new(alloc);
    for &candidate in candidates {
        let owner = candidate.owner;
        if atom.matches(&owner.facts, asker) {
            out.push(candidate)?;
        }
    }
    Ok(out)
}

fn ousts(alloc: Global, owner: &Pkg, gone: &Pkg, text: &str) -> Result<bool, AllocError>
    requires { text.now ≡ id_text gone.now.facts.id }
    ensures { IfOk result (λ it. it ≡ conflicts true owner.now gone.now) }
{
    let standing = Standing::new(alloc, owner, true)?;
    Ok(conflict(&standing, gone, text))
}

/// The candidates that conflict with the package, of which this is the text, once they are there.
pub(crate) fn ousting<'a>(
    alloc: Global,
    candidates: &[Candidate<'a>],
    gone: &Pkg,
    text: &str,
) -> Result<Vec<Candidate<'a>>, AllocError>
    requires { text.now ≡ id_text gone.now.facts.id }
    ensures { IfOk result (λ v. candidates_of v.items ≡
        filter (λ x. conflicts true x.is gone.now) (candidates_of candidates.now)) }
{
    let mut out = Vec::new(alloc);
    for &candidate in candidates {
        if ousts(alloc, candidate.owner, gone, text)? {
            out.push(candidate)?;
        }
    }
    Ok(out)
}

fn is_opposed(
    alloc: Global,
    places: &[Place<'_>],
    line: usize,
    owner: &Pkg,
) -> Result<bool, AllocError>
    ensures { IfOk result (λ it. it ≡
        opposes owner.now (get_or (places_of places.now) line no_place)) }
{
    if line >= places.len() {
        return Ok(false);
    }
    let text = owner.facts.id.print(alloc)?;
    Ok(opposes(&places[line], owner, text.as_str()))
}

/// The candidates with which what stands on the line doesn't conflict.
pub(crate) fn harmless<'a>(
    alloc: Global,
    places: &[Place<'_>],
    line: usize,
    candidates: &[Candidate<'a>],
) -> Result<Vec<Candidate<'a>>, AllocError>
    ensures { IfOk result (λ v. candidates_of v.items ≡
        filter (λ x. not (opposes x.is (get_or (places_of places.now) line no_place)))
        (candidates_of candidates.now)) }
{
    let mut out = Vec::new(alloc);
    for &candidate in candidates {
        if !is_opposed(alloc, places, line, candidate.owner)? {
            out.push(candidate)?;
        }
    }
    Ok(out)
}
