ghost use Rattle.std.specs.Prelude.{◌≡◌, Bool, IfErr, IfOk, List, None, ℕ};
ghost use Rattle.choice_tree.specs.Views.{universe_of};
ghost use Rattle.plan_text.specs.Plans.{GroupValue, plan_value};
ghost use Rattle.plan_text.specs.Texts.{IsPlan};
ghost use Rattle.plan_model.specs.Accepting.{Breaks, IsGood};
ghost use Rattle.resolver.specs.Answers.{IsChosen};
ghost use Rattle.merge_groups.specs.Arranged.{HasValues};
ghost use Rattle.merge_groups.specs.Single.{AreLinesApart};
ghost use Rattle.emerge_choose.specs.Answers.{IsChosenPlan, Tells};
ghost use Rattle.emerge_choose.specs.Trying.{IsFirstAccepted, NoneAccepted};
ghost use Rattle.emerge_choose.specs.Wishes.{first_unserved};
ghost use Rattle.emerge_choose.specs.declared.reason.NotTaken.{NotTaken};

use crate::chosen::Chosen;
use crate::fault::NotChosen;
use choice_tree::{Choice, Universe};
use merge_groups::{Arranged, arrange};
use pkg_state::Pkg;
use plan_model::{NotAccepted, accept};
use plan_text::Plan;
use std::alloc::Global;

/// The plan of the text, if it is accepted.
fn accepted(
    alloc: Global,
    installed: &[Pkg],
    offered: &[Pkg],
    text: Plan,
) -> Result<Chosen, NotAccepted>
    requires { IsPlan (plan_value text) }
    ensures text { IfOk result (λ chosen. chosen.text ≡ text) }
    ensures good { IfOk result (λ chosen.
        IsGood installed.now offered.now (plan_value text) chosen.plan) }
    ensures fault { IfErr result (Breaks installed.now offered.now (plan_value text)) }
{
    let plan = accept(alloc, installed, offered, &text)?;
    Ok(Chosen { text, plan })
}

/// The second plan, if it is accepted, where the first one isn't for this reason. It is tried only
/// where the check refuses the first one.
fn second(
    alloc: Global,
    installed: &[Pkg],
    offered: &[Pkg],
    fault: NotAccepted,
    level: Plan,
) -> Result<Chosen, NotChosen>
    requires { IsPlan (plan_value level) }
    ensures chosen { IfOk result (λ chosen. (fine : List GroupValue) →
        Breaks installed.now offered.now fine fault →
        IsFirstAccepted installed.now offered.now fine (plan_value level) chosen) }
    ensures fault { IfErr result (λ e. (fine : List GroupValue) →
        Breaks installed.now offered.now fine fault →
        NoneAccepted installed.now offered.now fine (plan_value level) e) }
{
    match fault {
        NotAccepted::Unlinked(fault) => Err(NotChosen::Unlinked(fault)),
        NotAccepted::Refused(refused) => {
            drop(refused);
            let chosen = accepted(alloc, installed, offered, level)?;
            Ok(chosen)
        }
        NotAccepted::Memory => Err(NotChosen::Memory),
    }
}

/// The first of the two plans that is accepted.
fn first_accepted(
    alloc: Global,
    installed: &[Pkg],
    offered: &[Pkg],
    plans: Arranged,
) -> Result<Chosen, NotChosen>
    requires { IsPlan (plan_value plans.fine) × IsPlan (plan_value plans.level) }
    ensures chosen { IfOk result (IsFirstAccepted installed.now offered.now
        (plan_value plans.fine) (plan_value plans.level)) }
    ensures fault { IfErr result (NoneAccepted installed.now offered.now (plan_value plans.fine)
        (plan_value plans.level)) }
{
    let Arranged { fine, level } = plans;
    match accepted(alloc, installed, offered, fine) {
        Ok(chosen) => Ok(chosen),
        Err(fault) => second(alloc, installed, offered, fault, level),
    }
}

/// The plan of the choice, if one is accepted.
pub(crate) fn planned(
    alloc: Global,
    installed: &[Pkg],
    offered: &[Pkg],
    universe: &Universe,
    choice: &Choice,
) -> Result<Chosen, NotChosen>
    requires apart { AreLinesApart (universe_of universe.now) }
    requires served { first_unserved (universe_of universe.now) ≡ None }
    requires values { HasValues (universe_of universe.now) choice.now }
    ensures chosen { IfOk result (λ chosen. (update : Bool) (limit : ℕ) →
        IsChosen update (universe_of universe.now) limit choice.now →
        IsChosenPlan installed.now offered.now update limit (universe_of universe.now) chosen) }
    ensures fault { IfErr result (λ e. (hidden : List NotTaken) (update : Bool) (limit : ℕ) →
        IsChosen update (universe_of universe.now) limit choice.now →
        Tells installed.now offered.now hidden update limit (universe_of universe.now) e) }
{
    let plans = arrange(alloc, installed, universe, choice)?;
    let chosen = first_accepted(alloc, installed, offered, plans)?;
    Ok(chosen)
}
