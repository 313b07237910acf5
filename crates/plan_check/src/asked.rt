ghost use Rattle.std.specs.Prelude.{◌≡◌, drop};
ghost use Rattle.std.specs.Option.{option_map};
ghost use Rattle.plan_law.specs.Lives.{commit};
ghost use Rattle.plan_lives.specs.Lives.{moment_of};
ghost use Rattle.plan_check.specs.Asks.{all_asked, asks_behind, next_asked, what_asked};

use dep_atom::{Atom, Bind};
use plan_lives::Moment;

/// What an addition asks of the binds of a plan's text.
#[derive(Drop)]
pub struct Asked<'a> {
    /// The leaves of its RDEPEND that ask for a bind, as they are written, in their order.
    pub leaves: Vec<&'a Atom>,
    /// Its binds, which should be one for each of these leaves.
    pub binds: &'a [Bind],
}

#[tactic(auto, using(crate::proofs::Taking::asked_here, crate::proofs::Taking::none_asked))]
fn asked_at<'b, 'a>(asks: &'b [Asked<'a>], place: usize) -> Option<&'b Asked<'a>>
    ensures { what_asked (option_map (λ a. a.now) result) ≡
        next_asked (commit 0) (all_asked (drop place asks.now)) }
{
    if place < asks.len() {
        return Some(&asks[place]);
    }
    None
}

/// What a package asks that is there from the moment on, where so many asks are taken.
pub(crate) fn next_asked<'b, 'a>(
    birth: Moment,
    asks: &'b [Asked<'a>],
    taken: usize,
) -> Option<&'b Asked<'a>>
    ensures { what_asked (option_map (λ a. a.now) result) ≡
        next_asked (moment_of birth) (all_asked (drop taken asks.now)) }
{
    match birth {
        Moment::Opening => None,
        Moment::Commit(_) => asked_at(asks, taken),
        Moment::Never => None,
    }
}

#[tactic(auto, using(crate::proofs::Taking::behind_here, crate::proofs::Taking::behind_none))]
fn place_behind(asks: &[Asked<'_>], place: usize) -> usize
    ensures { all_asked (drop result asks.now) ≡
        asks_behind (commit 0) (all_asked (drop place asks.now)) }
{
    if place < asks.len() {
        return place + 1;
    }
    place
}

/// How many are taken behind it.
pub(crate) fn taken_behind(birth: Moment, asks: &[Asked<'_>], taken: usize) -> usize
    ensures { all_asked (drop result asks.now) ≡
        asks_behind (moment_of birth) (all_asked (drop taken asks.now)) }
{
    match birth {
        Moment::Opening => taken,
        Moment::Commit(_) => place_behind(asks, taken),
        Moment::Never => taken,
    }
}
