ghost use Rattle.std.specs.Prelude.{◌≡◌, IfOk, map};
ghost use Rattle.plan_lives.specs.Index.{IsIndex, all_lives};
ghost use Rattle.plan_lives.specs.Lives.{lives_of};
ghost use Rattle.plan_rules.specs.Order.{AreInOrder};
ghost use Rattle.plan_check.specs.Asks.{all_asked, asking};
ghost use Rattle.plan_check.specs.PackageRules.{lives_in, tried_key};
ghost use Rattle.plan_check.specs.Turns.{tried_value};

use crate::asked::{Asked, next_asked, taken_behind};
use crate::tried::{Tried, by_turn, with_turn};
use plan_lives::{Index, Life};
use std::alloc::{AllocError, Global};

/// All packages with what they ask, in the order in which they come and stand in the plan.
fn all_tried<'l, 'b, 'a>(
    alloc: Global,
    index: &Index<'l>,
    asks: &'b [Asked<'a>],
) -> Result<Vec<Tried<'l, 'b, 'a>>, AllocError>
    requires { IsIndex index.now }
    ensures { IfOk result (λ v. map tried_value v.items ≡
        asking (all_lives index.now) (all_asked asks.now)) }
{
    let mut all = Vec::with_capacity(alloc, index.lives.len())?;
    let mut taken = 0;
    for life in index.lives {
        let asked = next_asked(life.birth, asks, taken);
        all.push(with_turn(alloc, life, asked)?)?;
        taken = taken_behind(life.birth, asks, taken);
    }
    Ok(all)
}

/// All packages with what they ask, in the order in which they are tried.
pub(crate) fn in_order<'l, 'b, 'a>(
    alloc: Global,
    index: &Index<'l>,
    asks: &'b [Asked<'a>],
) -> Result<Vec<Tried<'l, 'b, 'a>>, AllocError>
    requires { IsIndex index.now }
    ensures { IfOk result (λ v. AreInOrder tried_key
        (asking (all_lives index.now) (all_asked asks.now)) (map tried_value v.items)) }
{
    let mut all = all_tried(alloc, index, asks)?;
    all.sort_by(|a, b| by_turn(a, b))?;
    Ok(all)
}

/// How long each of these is there.
pub(crate) fn lives_in<'l>(
    alloc: Global,
    tried: &[Tried<'l, '_, '_>],
) -> Result<Vec<Life<'l>>, AllocError>
    ensures { IfOk result (λ v. lives_of v.items ≡ lives_in (map tried_value tried.now)) }
{
    let mut lives = Vec::with_capacity(alloc, tried.len())?;
    for one in tried {
        lives.push(one.life)?;
    }
    Ok(lives)
}
