ghost use Rattle.std.specs.Prelude.{◌≡◌, ◌<◌, ◌^◌, IfOk, length, map};
ghost use Rattle.std.specs.List.{AllZip};
ghost use Rattle.emerge_find.specs.Shapes.{HaveAsMany};
ghost use Rattle.run_turns.specs.Plans.{bytes_of_job};
ghost use Rattle.plan_text.specs.Plans.{group_value};
ghost use Rattle.merge_report.specs.Texts.{done_line};
ghost use Rattle.emerge_run.specs.Builds.{lines_from, ordered_of_job, orders_in};

use build_pool::Order;
use merge_report::line_of_group;
use plan_lives::Group;
use run_turns::Job;
use std::alloc::{AllocError, Global};

/// What goes with the groups of a plan, in turn: the line of each, and what is ordered for the
/// additions of its text.
pub fn jobs_of(
    alloc: Global,
    texts: &[plan_text::Group],
    plan: &[Group],
) -> Result<Vec<Job>, AllocError>
    requires alike { AllZip HaveAsMany (map group_value texts.now) plan.now }
    requires few { length plan.now < 2 ^ 32 }
    ensures lines { IfOk result (λ v. map bytes_of_job v.items ≡ lines_from 1 plan.now) }
    ensures orders { IfOk result (λ v.
        map ordered_of_job v.items ≡ map orders_in (map group_value texts.now)) }
{
    let mut jobs = Vec::with_capacity(alloc, plan.len())?;
    for (place, group) in plan.iter().enumerate() {
        let job = job_of(alloc, &texts[place], group, place as u32 + 1)?;
        jobs.push(job)?;
    }
    Ok(jobs)
}

/// What goes with a group of this number.
fn job_of(
    alloc: Global,
    text: &plan_text::Group,
    group: &Group,
    number: u32,
) -> Result<Job, AllocError>
    ensures line { IfOk result (λ j. j.line.items ≡ done_line group.now number) }
    ensures orders { IfOk result (λ j. j.orders.items ≡ orders_in (group_value text.now)) }
{
    let told = line_of_group(alloc, group, number)?;
    let line = told.as_bytes().to_vec(alloc)?;
    let orders = copies_of(alloc, &text.additions)?;
    Ok(Job { line, orders })
}

/// Copies of the orders, in turn.
fn copies_of(alloc: Global, orders: &[Order]) -> Result<Vec<Order>, AllocError>
    ensures { IfOk result (λ copies. copies.items ≡ orders.now) }
{
    let mut copies = Vec::with_capacity(alloc, orders.len())?;
    for order in orders {
        copies.push(order.try_clone()?)?;
    }
    Ok(copies)
}
