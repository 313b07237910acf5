ghost use Rattle.std.specs.Prelude.{◌≡◌};
ghost use Rattle.merge_core.specs.Event.{Claim, PutRecord, PutStage};
ghost use Rattle.merge_core.specs.Steps.{event_of};

use file_tree::{Object, Path};
use merge_core::Step;
use merge_record::Placement;
use std::marker::Model;
use std::snapshot::Snapshot;

#[derive(Drop)]
pub enum What {
    Step(Step),
    Stage(Snapshot<Placement>, Snapshot<Object>),
    Record(Snapshot<Vec<Path>>),
    Claim,
}

/// An event of a site. Of what was staged and recorded it keeps no byte.
#[derive(Drop)]
pub struct Happened {
    group: u32,
    what: What,
}

impl Model for Happened {
    ghost use Rattle.merge_core.specs.Event.{Event};
    ghost use Rattle.merge_site.specs.Happened.{event_told};

    ghost Value = { Event };

    ghost view = { λ h. event_told h.group h.what };
}

impl Happened {
    pub(crate) fn step(group: u32, step: Step) -> Happened
        ensures { result ≡ event_of group step }
    {
        let what = What::Step(step);
        Happened { group, what }
    }

    pub(crate) fn stage(group: u32, placement: &Placement, object: &Object) -> Happened
        ensures { result ≡ PutStage group placement.now object.now }
    {
        let what = What::Stage(Snapshot::of(placement), Snapshot::of(object));
        Happened { group, what }
    }

    pub(crate) fn record(group: u32, removals: &Vec<Path>) -> Happened
        ensures { result ≡ PutRecord group removals.now.items }
    {
        let what = What::Record(Snapshot::of(removals));
        Happened { group, what }
    }

    pub(crate) fn claim(group: u32) -> Happened
        ensures { result ≡ Claim group }
    {
        let what = What::Claim;
        Happened { group, what }
    }
}
