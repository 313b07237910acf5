ghost use Rattle.std.specs.Prelude.{◌≡◌, ◌++◌, ◌∷◌, ◌-◌, ◌<◌, [], length, is_ok};
ghost use Rattle.std.specs.Prelude.{IfErr, IsErr, IsErrOf, OnErr, OnOk};
ghost use Rattle.file_tree.specs.Disk.{CountsFault};
ghost use Rattle.merge_core.specs.Payloads.{IsAt};
ghost use Rattle.merge_core.specs.Steps.{IsTaken, event_of};
ghost use Rattle.merge_core.specs.declared.phase.Phase.TheVariants as phases;
ghost use Rattle.merge_site.specs.Site.{Adds};
ghost use Rattle.merge_group.specs.Paths.{ChangesPaths, due_in, made_in, step_for};
ghost use Rattle.merge_group.specs.Working.{Works, group_in, standing_at};

use crate::stop::Stop;
use file_tree::{Failed, Sink, Tree, TreeFault};
use merge_site::Site;

/// What becomes of a path of a group.
#[derive(Clone, Copy)]
pub(crate) enum PathChange {
    /// A staged object is placed there.
    Place,
    /// What is there goes.
    Remove,
}

/// Opens the gate of a claimed group: from here on a crash may leave its changes.
pub(crate) fn open<T: Tree, S: Sink>(site: &mut Site<T, S>, group: u32) -> Result<(), Stop>
    requires at { IsAt site.old.keeping group phases.Claimed }
    ensures works { Works group site.old site.new }
    ensures order { site.new.keeping.order ≡ site.old.keeping.order }
    ensures at { OnOk result (IsAt site.new.keeping group phases.Open) }
    ensures placed { OnOk result ((standing_at site.new group).placed ≡ 0) }
    ensures removed { OnOk result ((standing_at site.new group).removed ≡ 0) }
    ensures group { group_in site.new group ≡ group_in site.old group }
    ensures only { IfErr result (λ e. e ≡ Stop.Tree TreeFault.Failed) }
    ensures sink { site.new.sink ≡ site.old.sink }
    ensures faults { CountsFault (IsErrOf result (Stop.Tree TreeFault.Failed))
        (T.faults site.old.tree) (T.faults site.new.tree) }
{
    site.open_gate(group)?;
    site.sync_gate(group)?;
    Ok(())
}

/// How many paths of this kind an open group has still to change.
fn count_left<T: Tree, S: Sink>(site: &Site<T, S>, group: u32, change: PathChange) -> usize
    requires { group < length site.now.keeping.standings }
    ensures { result ≡ due_in (standing_at site.now group) change -
        made_in (standing_at site.now group) change }
{
    let (places, removals) = site.left(group);
    match change {
        PathChange::Place => places,
        PathChange::Remove => removals,
    }
}

/// Changes the next path of this kind.
fn change_path<T: Tree, S: Sink>(
    site: &mut Site<T, S>,
    group: u32,
    change: PathChange,
) -> Result<(), Failed>
    requires taken { IsTaken site.old.keeping group (step_for change) }
    ensures event { Adds site.old site.new (event_of group (step_for change)) (is_ok result) }
    ensures sink { site.new.sink ≡ site.old.sink }
    ensures faults { CountsFault (IsErr result) (T.faults site.old.tree) (T.faults site.new.tree) }
{
    match change {
        PathChange::Place => site.place(group)?,
        PathChange::Remove => site.remove_path(group)?,
    };
    Ok(())
}

/// Changes all paths of this kind of an open group.
pub(crate) fn change_paths<T: Tree, S: Sink>(
    site: &mut Site<T, S>,
    group: u32,
    change: PathChange,
) -> Result<(), Stop>
    requires at { IsAt site.old.keeping group phases.Open }
    requires none { made_in (standing_at site.old group) change ≡ 0 }
    ensures paths { ChangesPaths change group site.old site.new }
    ensures at { OnOk result (IsAt site.new.keeping group phases.Open) }
    ensures all { OnOk result (made_in (standing_at site.new group) change ≡
        due_in (standing_at site.new group) change) }
    ensures only { IfErr result (λ e. e ≡ Stop.Tree TreeFault.Failed) }
    ensures sink { site.new.sink ≡ site.old.sink }
    ensures faults { CountsFault (IsErrOf result (Stop.Tree TreeFault.Failed))
        (T.faults site.old.tree) (T.faults site.new.tree) }
{
    let count = count_left(site, group, change);
    for _ in 0..count {
        change_path(site, group, change)?;
    }
    Ok(())
}

/// Makes the paths of a group durable: from here on a crash leaves its changes.
pub(crate) fn settle<T: Tree, S: Sink>(site: &mut Site<T, S>, group: u32) -> Result<(), Stop>
    requires at { IsAt site.old.keeping group phases.Open }
    requires placed { (standing_at site.old group).placed ≡
        length (standing_at site.old group).placements }
    requires removed { (standing_at site.old group).removed ≡
        length (standing_at site.old group).removals }
    ensures works { Works group site.old site.new }
    ensures settled { OnOk result
        (site.new.keeping.order ≡ site.old.keeping.order ++ group_in site.old group ∷ []) }
    ensures order { OnErr result (site.new.keeping.order ≡ site.old.keeping.order) }
    ensures at { OnOk result (IsAt site.new.keeping group phases.Placed) }
    ensures group { group_in site.new group ≡ group_in site.old group }
    ensures only { IfErr result (λ e. e ≡ Stop.Tree TreeFault.Failed) }
    ensures sink { site.new.sink ≡ site.old.sink }
    ensures faults { CountsFault (IsErrOf result (Stop.Tree TreeFault.Failed))
        (T.faults site.old.tree) (T.faults site.new.tree) }
{
    site.sync_placed(group)?;
    Ok(())
}

/// Closes the gate of a group that is in the tree for good.
pub(crate) fn close<T: Tree, S: Sink>(site: &mut Site<T, S>, group: u32) -> Result<(), Stop>
    requires at { IsAt site.old.keeping group phases.Placed }
    ensures works { Works group site.old site.new }
    ensures order { site.new.keeping.order ≡ site.old.keeping.order }
    ensures at { OnOk result (IsAt site.new.keeping group phases.Done) }
    ensures group { group_in site.new group ≡ group_in site.old group }
    ensures only { IfErr result (λ e. e ≡ Stop.Tree TreeFault.Failed) }
    ensures sink { site.new.sink ≡ site.old.sink }
    ensures faults { CountsFault (IsErrOf result (Stop.Tree TreeFault.Failed))
        (T.faults site.old.tree) (T.faults site.new.tree) }
{
    site.close_gate(group)?;
    site.sync_closed(group)?;
    Ok(())
}
