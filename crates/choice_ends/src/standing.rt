ghost use Rattle.std.specs.Prelude.{◌≡◌, ◌<◌, IfOk, length};
ghost use Rattle.std.specs.Option.{option_map};
ghost use Rattle.choice_law.specs.Tree.{filling};
ghost use Rattle.choice_law.specs.Universe.{offer_at, package_of};
ghost use Rattle.choice_tree.specs.Views.{offer_of, universe_of};
ghost use Rattle.choice_walk.specs.Way.{here};

use choice_tree::{Choice, Offer, Step, Universe};
use choice_walk::Walk;
use pkg_state::Pkg;
use std::alloc::{AllocError, Global};

/// A walk that has come to a choice.
pub(crate) fn walk_to<'u>(
    alloc: Global,
    universe: &'u Universe,
    choice: &Choice,
) -> Result<Walk<'u>, AllocError>
    ensures over { IfOk result (λ walk. walk.universe.now ≡ universe.now) }
    ensures there { IfOk result (λ walk. here walk.trail.items ≡ choice.now) }
{
    let mut walk = Walk::new(alloc, universe)?;
    let decisions = choice.decisions();
    let mut left = decisions.len();
    while left > 0 {
        left -= 1;
        let step = Step {
            held: None,
            decision: decisions[left],
        };
        walk.go(alloc, step)?;
    }
    Ok(walk)
}

/// What is offered on a line.
pub(crate) fn offer_at(universe: &Universe, line: usize) -> &Offer
    requires { line < length universe.now.offers.items }
    ensures { offer_of result.now ≡ offer_at (universe_of universe.now) line }
{
    &universe.offers[line]
}

/// The package that stands on a line under the choice where a walk is.
pub(crate) fn standing_on<'u>(walk: &Walk<'u>, line: usize) -> Option<&'u Pkg>
    requires { line < length walk.now.universe.now.offers.items }
    ensures { option_map (λ p. p.now) result ≡
        package_of (offer_at (universe_of walk.now.universe.now) line)
        (filling (universe_of walk.now.universe.now) (here walk.now.trail.items) line) }
{
    let offer = offer_at(walk.universe, line);
    offer.package(offer.value(walk.decided(line)))
}
