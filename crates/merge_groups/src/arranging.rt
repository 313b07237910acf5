ghost use Rattle.std.specs.Prelude.{IfErr, IfOk, length, map};
ghost use Rattle.choice_tree.specs.Views.{universe_of};
ghost use Rattle.merge_edges.specs.Views.{change_of};
ghost use Rattle.merge_graph.specs.Edges.{AreBetween};
ghost use Rattle.plan_text.specs.Plans.{plan_value};
ghost use Rattle.plan_text.specs.Texts.{IsPlan};
ghost use Rattle.merge_groups.specs.Apart.{AreChangesApart, AreSome};
ghost use Rattle.merge_groups.specs.Arranged.{AreNumbered, HasNoPlan, HasValues, HaveNoPlan};
ghost use Rattle.merge_groups.specs.Arranged.{IsFine, IsFineOf, IsLevel, IsLevelOf};
ghost use Rattle.merge_groups.specs.Single.{AreLinesApart};

use crate::arranged::{Arranged, NotArranged};
use crate::components::{Components, number_changes};
use crate::drafting::{fine_groups, level_groups};
use crate::writing::text_of;
use choice_tree::{Choice, Universe};
use merge_edges::{Change, changes_of, edges_of};
use merge_graph::Edge;
use pkg_state::Pkg;
use plan_text::Plan;
use std::alloc::{AllocError, Global};

/// The text of the plan with a group for each component.
fn fine_of(
    alloc: Global,
    installed: &[Pkg],
    changes: &[Change<'_>],
    edges: &[Edge],
    components: &Components,
) -> Result<Plan, AllocError>
    requires apart { AreChangesApart (map change_of changes.now) }
    requires some { AreSome (map change_of changes.now) }
    requires numbered { AreNumbered (length (map change_of changes.now)) edges.now
        components.now.numbers.items components.now.count }
    ensures is { IfOk result (λ p. IsFineOf installed.now (map change_of changes.now) edges.now
        (plan_value p)) }
    ensures form { IfOk result (λ p. IsPlan (plan_value p)) }
{
    let Components { numbers, count } = components;
    let plan = fine_groups(alloc, changes, edges, numbers, *count)?;
    let _form = plan.groups();
    let text = text_of(alloc, installed, &plan)?;
    Ok(text)
}

/// The text of the plan with a group for each level.
fn level_of(
    alloc: Global,
    installed: &[Pkg],
    changes: &[Change<'_>],
    edges: &[Edge],
    components: &Components,
) -> Result<Plan, AllocError>
    requires apart { AreChangesApart (map change_of changes.now) }
    requires some { AreSome (map change_of changes.now) }
    requires between { AreBetween (length (map change_of changes.now)) edges.now }
    requires numbered { AreNumbered (length (map change_of changes.now)) edges.now
        components.now.numbers.items components.now.count }
    ensures is { IfOk result (λ p. IsLevelOf installed.now (map change_of changes.now) edges.now
        (plan_value p)) }
    ensures form { IfOk result (λ p. IsPlan (plan_value p)) }
{
    let Components { numbers, count } = components;
    let plan = level_groups(alloc, changes, edges, numbers, *count)?;
    let _form = plan.groups();
    let text = text_of(alloc, installed, &plan)?;
    Ok(text)
}

/// Both plans of changes with these edges.
fn both_plans(
    alloc: Global,
    installed: &[Pkg],
    changes: &[Change<'_>],
    edges: &[Edge],
) -> Result<Arranged, NotArranged>
    requires apart { AreChangesApart (map change_of changes.now) }
    requires some { AreSome (map change_of changes.now) }
    requires between { AreBetween (length (map change_of changes.now)) edges.now }
    ensures fine { IfOk result (λ a. IsFineOf installed.now (map change_of changes.now) edges.now
        (plan_value a.fine)) }
    ensures level { IfOk result (λ a. IsLevelOf installed.now (map change_of changes.now) edges.now
        (plan_value a.level)) }
    ensures form { IfOk result (λ a. IsPlan (plan_value a.fine) × IsPlan (plan_value a.level)) }
    ensures fault { IfErr result (HaveNoPlan (map change_of changes.now) edges.now) }
{
    let components = number_changes(alloc, changes, edges)?;
    let fine = fine_of(alloc, installed, changes, edges, &components)?;
    let level = level_of(alloc, installed, changes, edges, &components)?;
    Ok(Arranged { fine, level })
}

/// The fine plan and the level plan of what a choice changes of the installed packages.
pub fn arrange(
    alloc: Global,
    installed: &[Pkg],
    universe: &Universe,
    choice: &Choice,
) -> Result<Arranged, NotArranged>
    requires apart { AreLinesApart (universe_of universe.now) }
    requires values { HasValues (universe_of universe.now) choice.now }
    ensures fine { IfOk result (λ a.
        IsFine installed.now (universe_of universe.now) choice.now (plan_value a.fine)) }
    ensures level { IfOk result (λ a.
        IsLevel installed.now (universe_of universe.now) choice.now (plan_value a.level)) }
    ensures form { IfOk result (λ a. IsPlan (plan_value a.fine) × IsPlan (plan_value a.level)) }
    ensures fault { IfErr result (HasNoPlan (universe_of universe.now) choice.now) }
{
    let changes = changes_of(alloc, universe, choice)?;
    let edges = edges_of(alloc, universe, choice)?;
    both_plans(alloc, installed, &changes, &edges)
}
