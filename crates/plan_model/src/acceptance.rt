ghost use Rattle.std.specs.Prelude.{◌≡◌, ◌≢◌, ◌↔◌, ◌⊎◌, IfErr, IfOk, IsSome, IsTrue, List};
ghost use Rattle.std.specs.Prelude.{MatchOption, Some};
ghost use Rattle.pkg_state.specs.Fault as state;
ghost use Rattle.pkg_state.specs.Package.{Package};
ghost use Rattle.plan_rules.specs.Refusals.{told};
ghost use Rattle.plan_text.specs.Plans.{GroupValue, plan_value};
ghost use Rattle.plan_text.specs.Texts.{IsPlan};
ghost use Rattle.plan_model.specs.Accepting.{Breaks, IsGood, IsRight};
ghost use Rattle.plan_model.specs.Faults.{link_rule};
ghost use Rattle.plan_model.specs.Linked.{IsLinked};
ghost use Rattle.plan_model.specs.declared.fault.LinkFault.TheVariants as links;
ghost use Rattle.plan_model.specs.declared.fault.NotAccepted.TheVariants.{Memory, Refused};

use crate::asking::asks_of;
use crate::fault::{LinkFault, NotAccepted};
use crate::linking::link;
use pkg_state::{Broken, Pkg};
use plan_check::check;
use plan_lives::Plan;
use plan_rules::PlanRefused;
use plan_text as text;
use std::alloc::Global;

fn of_link(fault: LinkFault) -> NotAccepted
    ensures breaks { (installed offered : List Package) (groups : List GroupValue) →
        (fault ≢ links.Memory → link_rule offered groups (Some fault)) →
        Breaks installed offered groups result }
    ensures want { fault ≡ links.Memory → result ≡ Memory }
{
    match fault {
        LinkFault::NoCandidate { group, package } => {
            NotAccepted::Unlinked(LinkFault::NoCandidate { group, package })
        }
        LinkFault::BadFlag {
            group,
            package,
            flag,
        } => NotAccepted::Unlinked(LinkFault::BadFlag {
            group,
            package,
            flag,
        }),
        LinkFault::Memory => NotAccepted::Memory,
    }
}

fn linked(alloc: Global, text: &text::Plan, offered: &[Pkg]) -> Result<Plan, NotAccepted>
    requires { IsPlan (plan_value text.now) }
    ensures linked { IfOk result (IsLinked offered.now (plan_value text.now)) }
    ensures fault { IfErr result (λ e. (installed : List Package) →
        Breaks installed offered.now (plan_value text.now) e) }
    ensures fine { link_rule offered.now (plan_value text.now) None →
        IfErr result (λ e. e ≡ Memory) }
{
    match link(alloc, text, offered) {
        Ok(plan) => Ok(plan),
        Err(fault) => Err(of_link(fault)),
    }
}

fn is_told_broken(broken: &Broken) -> bool
    ensures { IsTrue result ↔ IsSome (state.told broken.now) }
{
    match broken {
        Broken::Memory => false,
        _ => true,
    }
}

fn is_told(refused: &PlanRefused) -> bool
    ensures { IsTrue result ↔ IsSome (told refused.now) }
{
    match refused {
        PlanRefused::Opening(broken) => is_told_broken(broken),
        PlanRefused::Memory => false,
        _ => true,
    }
}

/// The refusal, where the plan was refused for a rule, and not for want of memory.
fn told_of(refused: PlanRefused) -> Option<PlanRefused>
    ensures { MatchOption result (¬ IsSome (told refused))
        (λ r. (r ≡ refused) × IsSome (told refused)) }
{
    if is_told(&refused) {
        return Some(refused);
    }
    drop(refused);
    None
}

fn of_refused(refused: PlanRefused) -> NotAccepted
    ensures { ((result ≡ Memory) × ¬ IsSome (told refused))
        ⊎ ((result ≡ Refused refused) × IsSome (told refused)) }
{
    match told_of(refused) {
        Some(refused) => NotAccepted::Refused(refused),
        None => NotAccepted::Memory,
    }
}

/// Links the text of a plan to the packages that are offered, and checks the plan that it stands
/// for over those that are installed.
pub fn accept(
    alloc: Global,
    installed: &[Pkg],
    offered: &[Pkg],
    text: &text::Plan,
) -> Result<Plan, NotAccepted>
    requires { IsPlan (plan_value text.now) }
    ensures good { IfOk result (IsGood installed.now offered.now (plan_value text.now)) }
    ensures fault { IfErr result (Breaks installed.now offered.now (plan_value text.now)) }
    ensures fine { IsRight installed.now offered.now (plan_value text.now) →
        IfErr result (λ e. e ≡ Memory) }
{
    let plan = linked(alloc, text, offered)?;
    let asks = asks_of(alloc, text, offered)?;
    match check(alloc, installed, &plan, &asks) {
        Ok(()) => Ok(plan),
        Err(refused) => Err(of_refused(refused)),
    }
}
