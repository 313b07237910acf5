ghost use Rattle.std.specs.Prelude.{◌≡◌, ◌↔◌, IsTrue, MatchOption};
ghost use Rattle.plan_law.specs.Plans.{WaitsForEarlier};
ghost use Rattle.plan_lives.specs.Form.{AreBelow, IsPlanInForm};

use basics::MOST_GROUPS;
use dep_atom::PackageId;
use pkg_state::Pkg;
use pms_names::SlotName;
use std::marker::Model;

/// A package that goes, with its slot.
#[derive(Debug, Drop)]
pub struct Removal {
    pub id: PackageId,
    pub slot: SlotName,
}

impl Model for Removal {
    ghost use Rattle.std.specs.Coded.{codes};
    ghost use Rattle.plan_law.specs.Plans.{Removal as RemovalValue};

    ghost Value = { RemovalValue };

    ghost view = { λ r. record { id = r.id; slot = r.slot } };
}

/// Changes that are committed together. An addition is the package as it enters, its slot operators
/// bound.
#[derive(Debug, Drop)]
pub struct Group {
    /// The places in the plan of the groups that it waits for.
    pub after: Vec<usize>,
    pub removals: Vec<Removal>,
    pub additions: Vec<Pkg>,
}

impl Model for Group {
    ghost use Rattle.std.specs.Coded.{codes};
    ghost use Rattle.pkg_state.specs.Codes.{trees_code};
    ghost use Rattle.plan_law.specs.Plans.{Group as GroupValue};

    ghost Value = { GroupValue };

    ghost coded = { Prim.hlevel (codes, trees_code) };

    ghost view = { λ g. record {
      after = g.after.items;
      removals = g.removals.items;
      additions = g.additions.items;
    } };
}

/// Groups, each of which waits for earlier ones alone.
#[derive(Debug, Drop)]
pub struct Plan {
    groups: Vec<Group>,
}

impl Model for Plan {
    ghost use Rattle.std.specs.Prelude.{List};
    ghost use Rattle.std.specs.Coded.{codes};
    ghost use Rattle.pkg_state.specs.Codes.{trees_code};
    ghost use Rattle.plan_law.specs.Plans.{Group as GroupValue};
    ghost use Rattle.plan_lives.specs.Form.{IsPlanInForm};

    ghost Value = { List GroupValue };

    ghost coded = { Prim.hlevel (codes, trees_code) };

    ghost view = { λ p. p.groups.items };

    ghost invariant = { λ p. IsPlanInForm p.groups.items };
}

impl Plan {
    /// A plan, where each group waits for earlier ones alone and there are at most 4,096.
    pub fn new(groups: Vec<Group>) -> Option<Plan>
        ensures { MatchOption result (¬ IsPlanInForm groups.items) (λ plan. plan ≡ groups.items) }
    {
        if !is_in_form(&groups) {
            return None;
        }
        Some(Plan { groups })
    }

    /// Its groups. It says too that they are in form.
    pub fn groups(&self) -> &[Group]
        ensures groups { result.now ≡ self.now }
        ensures form { IsPlanInForm self.now }
    {
        &self.groups
    }
}

fn is_in_form(groups: &[Group]) -> bool
    ensures { IsTrue result ↔ IsPlanInForm groups.now }
{
    groups.len() <= MOST_GROUPS as usize && waits_for_earlier(groups)
}

fn waits_for_earlier(groups: &[Group]) -> bool
    ensures { IsTrue result ↔ WaitsForEarlier groups.now }
{
    for (g, group) in groups.iter().enumerate() {
        if !are_below(&group.after, g) {
            return false;
        }
    }
    true
}

fn are_below(after: &[usize], g: usize) -> bool
    ensures { IsTrue result ↔ AreBelow after.now g }
{
    for h in after {
        if *h >= g {
            return false;
        }
    }
    true
}
