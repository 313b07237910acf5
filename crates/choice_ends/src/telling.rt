ghost use Rattle.std.specs.Prelude.{◌≡◌, ◌≢◌, IfOk, None, take};
ghost use Rattle.std.specs.List.{AllZip};
ghost use Rattle.basics.specs.Members.{Has};
ghost use Rattle.pkg_state.specs.Package.{Package};
ghost use Rattle.choice_law.specs.Tree.{Choice as Decisions, IsOpen, Obligation as Open, filling};
ghost use Rattle.choice_law.specs.Universe.{Stands, offer_at};
ghost use Rattle.choice_tree.specs.Open.{first_open, obligation_of};
ghost use Rattle.choice_tree.specs.Views.{universe_of};
ghost use Rattle.choice_walk.specs.Way.{here};
ghost use Rattle.choice_ends.specs.Ends.{AreDeadEnds, IsDeadEnd, IsLack, IsNamed, most_told};

use crate::ends::{DeadEnd, Lack};
use crate::needs::{is_offered, leaf_of};
use crate::picks::picks_of;
use crate::standing::{offer_at, standing_on, walk_to};
use choice_tree::{Choice, Obligation, Universe, first_open_is_a_pick};
use choice_walk::Walk;
use dep_atom::PackageId;
use pkg_state::{Class, Pkg};
use std::alloc::{AllocError, Global};

/// Of so many dead ends a person is told.
const MOST_TOLD: usize = 10;

/// The package that stands on a line.
fn named<'u>(walk: &Walk<'u>, line: usize) -> &'u Pkg
    requires { (p : Package) × Stands (universe_of walk.now.universe.now)
        (filling (universe_of walk.now.universe.now) (here walk.now.trail.items)) line p }
    ensures { Stands (universe_of walk.now.universe.now)
        (filling (universe_of walk.now.universe.now) (here walk.now.trail.items)) line
        result.now }
{
    match standing_on(walk, line) {
        Some(one) => one,
        None => unreachable!(),
    }
}

/// The name of the package that stands on a line.
fn id_on(walk: &Walk<'_>, line: usize) -> Result<PackageId, AllocError>
    requires { (p : Package) × Stands (universe_of walk.now.universe.now)
        (filling (universe_of walk.now.universe.now) (here walk.now.trail.items)) line p }
    ensures { IfOk result (λ id. (p : Package) × IsNamed (universe_of walk.now.universe.now)
        (here walk.now.trail.items) line p id) }
{
    named(walk, line).facts.id.try_clone()
}

/// What a package needs.
fn need_on(walk: &Walk<'_>, line: usize, class: Class) -> Result<Lack, AllocError>
    requires { (p : Package) × Stands (universe_of walk.now.universe.now)
        (filling (universe_of walk.now.universe.now) (here walk.now.trail.items)) line p }
    ensures { IfOk result (IsLack (universe_of walk.now.universe.now) (here walk.now.trail.items)
        (Open.tree line class)) }
{
    let one = named(walk, line);
    let id = one.facts.id.try_clone()?;
    let leaf = leaf_of(walk, one, class)?;
    let is_offered = is_offered(walk.universe, leaf.as_ref(), &one.facts.enabled);
    Ok(Lack::Need(id, class, leaf, is_offered))
}

/// The package that is installed on a line, and is to go.
fn forsaken_on(walk: &Walk<'_>, line: usize) -> Result<Lack, AllocError>
    requires { IsOpen (universe_of walk.now.universe.now) (here walk.now.trail.items)
        (Open.absence line) }
    ensures { IfOk result (IsLack (universe_of walk.now.universe.now) (here walk.now.trail.items)
        (Open.absence line)) }
{
    match &offer_at(walk.universe, line).installed {
        Some(one) => Ok(Lack::Forsaken(one.facts.id.try_clone()?)),
        None => unreachable!(),
    }
}

/// What is open of the choice where a walk is.
fn lack_of(walk: &Walk<'_>, obligation: &Obligation<'_>) -> Result<Lack, AllocError>
    requires { IsOpen (universe_of walk.now.universe.now) (here walk.now.trail.items)
        (obligation_of obligation.now) }
    ensures { IfOk result (IsLack (universe_of walk.now.universe.now) (here walk.now.trail.items)
        (obligation_of obligation.now)) }
{
    match *obligation {
        Obligation::Wanted(atom) => Ok(Lack::Wanted(atom.try_clone()?)),
        Obligation::Required(line) => Ok(Lack::Flags(id_on(walk, line)?)),
        Obligation::Conflict(line, other) => {
            let one = id_on(walk, line)?;
            Ok(Lack::Conflict(one, id_on(walk, other)?))
        }
        Obligation::Tree(line, class) => need_on(walk, line, class),
        Obligation::Absence(line) => forsaken_on(walk, line),
    }
}

/// A choice of which something is open, as a dead end.
fn dead_end(alloc: Global, universe: &Universe, choice: &Choice) -> Result<DeadEnd, AllocError>
    requires { first_open (universe_of universe.now) choice.now ≢ None }
    ensures { IfOk result (IsDeadEnd (universe_of universe.now) choice.now) }
{
    first_open_is_a_pick();
    let mut walk = walk_to(alloc, universe, choice)?;
    let chosen = picks_of(alloc, universe, choice.decisions())?;
    match walk.first_open(alloc)? {
        Some(obligation) => {
            let lacks = lack_of(&walk, &obligation)?;
            Ok(DeadEnd { chosen, lacks })
        }
        None => unreachable!(),
    }
}

/// The first of these choices.
fn first_told(choices: &[Choice]) -> &[Choice]
    ensures { result.now ≡ take most_told choices.now }
{
    if choices.len() <= MOST_TOLD {
        return choices;
    }
    &choices[..MOST_TOLD]
}

fn each_end(
    alloc: Global,
    universe: &Universe,
    choices: &[Choice],
) -> Result<Vec<DeadEnd>, AllocError>
    requires { (c : Decisions) → Has choices.now c →
        first_open (universe_of universe.now) c ≢ None }
    ensures { IfOk result (λ dead. AllZip (IsDeadEnd (universe_of universe.now)) choices.now
        dead.items) }
{
    let mut ends = Vec::with_capacity(alloc, choices.len())?;
    for choice in choices {
        ends.push(dead_end(alloc, universe, choice)?)?;
    }
    Ok(ends)
}

/// The first ten of the choices, each of which has something open, as dead ends.
pub fn dead_ends(
    alloc: Global,
    universe: &Universe,
    choices: &[Choice],
) -> Result<Vec<DeadEnd>, AllocError>
    requires { (c : Decisions) → Has choices.now c →
        first_open (universe_of universe.now) c ≢ None }
    ensures { IfOk result (λ dead. AreDeadEnds (universe_of universe.now) choices.now dead.items) }
{
    each_end(alloc, universe, first_told(choices))
}
