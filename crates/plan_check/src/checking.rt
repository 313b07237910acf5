ghost use Rattle.std.specs.Prelude.{◌≡◌, IfErr, IfSome, None, OnOk, Some, map};
ghost use Rattle.std.specs.Option.{option_map};
ghost use Rattle.basics.specs.Members.{Has};
ghost use Rattle.plan_law.specs.Accepted.{IsAccepted};
ghost use Rattle.plan_law.specs.Sound.{IsSound};
ghost use Rattle.plan_lives.specs.Index.{IsIndex, all_lives, plan_of, start_of};
ghost use Rattle.plan_lives.specs.Lives.{life_of, lives_of};
ghost use Rattle.plan_lives.specs.Left.{left_of};
ghost use Rattle.plan_check.specs.Asks.{all_asked, what_asked};
ghost use Rattle.plan_check.specs.Binding.{AreBound};
ghost use Rattle.plan_check.specs.PackageRules.{check_rule, lives_in, package_rule, plan_rule};
ghost use Rattle.plan_check.specs.Turns.{tried_value};
ghost use Rattle.plan_rules.specs.Order.{AreInOrder, life_key};
ghost use Rattle.plan_rules.specs.Refusals.{Says, told};
ghost use Rattle.plan_rules.specs.Verdicts.{each};

use crate::asked::Asked;
use crate::blocked::{judge_strong, judge_weak};
use crate::coming::judge_what_comes;
use crate::finished::judge_finished;
use crate::lasting::{judge_built, judge_lasting};
use crate::queue::{in_order, lives_in};
use crate::tried::Tried;
use pkg_state::Pkg;
use plan_law::accepted_plans_are_sound;
use plan_lives::{Index, Life, Packages, Plan, Reach, index_of, lines_of, lives_of};
use plan_rules::{PlanRefused, judge_lines, judge_opening, judge_present, judge_room};
use std::alloc::Global;

fn judge_package(
    alloc: Global,
    index: &Index<'_>,
    left: &Packages<'_>,
    all: &[Life<'_>],
    asked: Option<&Asked<'_>>,
    x: &Life<'_>,
) -> Result<(), PlanRefused>
    requires is { IsIndex index.now }
    requires order { AreInOrder life_key (all_lives index.now) (lives_of all.now) }
    requires left { map (λ p. p.now) left.now.all.items ≡
        left_of (plan_of index.now) (start_of index.now) }
    requires x { Has (all_lives index.now) (life_of x.now) }
    ensures { Says (package_rule (plan_of index.now) (start_of index.now) (lives_of all.now)
        (life_of x.now, what_asked (option_map (λ a. a.now) asked.entry))) result }
{
    judge_what_comes(alloc, index, asked, x)?;
    judge_lasting(alloc, index, left, x)?;
    judge_weak(alloc, index, all, x)?;
    judge_strong(alloc, index, all, x)?;
    judge_built(alloc, index, x)?;
    judge_finished(left, x)
}

/// Judges package by package, in their order.
fn judge_packages(
    alloc: Global,
    index: &Index<'_>,
    left: &Packages<'_>,
    all: &[Life<'_>],
    tried: &[Tried<'_, '_, '_>],
) -> Result<(), PlanRefused>
    requires is { IsIndex index.now }
    requires order { AreInOrder life_key (all_lives index.now) (lives_of all.now) }
    requires lives { lives_of all.now ≡ lives_in (map tried_value tried.now) }
    requires left { map (λ p. p.now) left.now.all.items ≡
        left_of (plan_of index.now) (start_of index.now) }
    ensures { Says (each (map tried_value tried.now)
        (package_rule (plan_of index.now) (start_of index.now) (lives_of all.now))) result }
{
    for one in tried {
        judge_package(alloc, index, left, all, one.asked, &one.life)?;
    }
    Ok(())
}

fn judge_in_order(
    alloc: Global,
    index: &Index<'_>,
    all: &[Life<'_>],
    tried: &[Tried<'_, '_, '_>],
) -> Result<(), PlanRefused>
    requires is { IsIndex index.now }
    requires order { AreInOrder life_key (all_lives index.now) (lives_of all.now) }
    requires lives { lives_of all.now ≡ lives_in (map tried_value tried.now) }
    ensures { Says (plan_rule (plan_of index.now) (start_of index.now) (lives_of all.now)
        (map tried_value tried.now)) result }
{
    judge_lines(alloc, index.reach)?;
    judge_present(alloc, index)?;
    judge_room(alloc, index, all)?;
    judge_opening(alloc, index.start)?;
    let left = Packages::left(alloc, index.lives)?;
    judge_packages(alloc, index, &left, all, tried)
}

fn judge_all(alloc: Global, index: &Index<'_>, asks: &[Asked<'_>]) -> Result<(), PlanRefused>
    requires { IsIndex index.now }
    ensures { Says (check_rule (plan_of index.now) (start_of index.now) (all_asked asks.now))
        result }
{
    let tried = in_order(alloc, index, asks)?;
    let all = lives_in(alloc, &tried)?;
    judge_in_order(alloc, index, &all, &tried)
}

fn judge(alloc: Global, start: &[Pkg], plan: &Plan, asks: &[Asked<'_>]) -> Result<(), PlanRefused>
    ensures { Says (check_rule plan.now start.now (all_asked asks.now)) result }
{
    let groups = plan.groups();
    let reach = Reach::new(alloc, groups)?;
    let lives = lives_of(alloc, start, groups)?;
    let lines = lines_of(alloc, &lives)?;
    let index = index_of(alloc, start, &reach, &lives, &lines)?;
    judge_all(alloc, &index, asks)
}

/// Accepts a plan over the packages that are there, or tells the first rule that it breaks, by the
/// first package that breaks it in the order of groups and lines. The additions of the plan ask in
/// the order in which they stand there; past the last of these asks nothing is asked.
pub fn check(
    alloc: Global,
    start: &[Pkg],
    plan: &Plan,
    asks: &[Asked<'_>],
) -> Result<(), PlanRefused>
    ensures ok { OnOk result (IsAccepted plan.now start.now) }
    ensures bound { OnOk result (AreBound plan.now start.now (all_asked asks.now)) }
    ensures sound { OnOk result (IsSound plan.now start.now) }
    ensures passed { OnOk result (check_rule plan.now start.now (all_asked asks.now) None) }
    ensures refused { IfErr result (λ e. IfSome (told e) (λ refusal.
        check_rule plan.now start.now (all_asked asks.now) (Some refusal))) }
    ensures fine { IsAccepted plan.now start.now →
        AreBound plan.now start.now (all_asked asks.now) → IfErr result (λ e. told e ≡ None) }
{
    let _groups = plan.groups();
    accepted_plans_are_sound();
    judge(alloc, start, plan, asks)
}
