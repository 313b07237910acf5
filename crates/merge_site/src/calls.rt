ghost use Rattle.std.specs.Prelude.{◌≡◌, ◌<◌, ◌^◌, ℕ, Bool, false, List, Some, None, is_ok};
ghost use Rattle.std.specs.Prelude.{length, slice_get};
ghost use Rattle.std.specs.Prelude.{IsErr, IsErrOf, IsSome, IsTrue};
ghost use Rattle.file_tree.specs.Disk.{CountsFault};
ghost use Rattle.merge_journal.specs.Group.{token};
ghost use Rattle.file_tree.specs.ObjectValue.{plain};
ghost use Rattle.merge_journal.specs.Names.{gate_path, record_path, stage_path, token_path};
ghost use Rattle.merge_record.specs.Spelling.{spelling};
ghost use Rattle.merge_record.specs.declared.record.Placement.{Placement};
ghost use Rattle.merge_core.specs.Event.{CloseGate, OpenGate, PlacePath, PutRecord, PutStage};
ghost use Rattle.merge_core.specs.Event.{PutToken, RemovePath, SyncClosed, SyncGate, SyncPlaced};
ghost use Rattle.merge_core.specs.Event.{SyncSealed, needs_sync, put_content};
ghost use Rattle.merge_core.specs.Roll.{Machine};
ghost use Rattle.merge_core.specs.Site.{Performs};
ghost use Rattle.merge_site.specs.Quiet.{QuietPerforms};

use file_tree::{Failed, Object, Path, Tree, TreeFault};

/// Puts an object as the group's next stage.
pub fn put_stage<T: Tree>(
    tree: &mut T,
    group: u32,
    stage: &Path,
    object: &Object,
) -> Result<(), TreeFault>
    ensures performs { IsTrue T.tells → (m : Machine) (p : Placement) →
        stage.now ≡ stage_path group (length (m.roll.standing group).objects) →
        Performs m (PutStage group p object.now) (is_ok result) (T.story tree.old)
        (T.story tree.new) }
    ensures memory { IsTrue T.tells → IsErrOf result TreeFault.Memory →
        T.story tree.new ≡ T.story tree.old }
    ensures faults { CountsFault (IsErrOf result TreeFault.Failed) (T.faults tree.old)
        (T.faults tree.new) }
{
    tree.put(stage, object)
}

/// Puts the record of a group.
pub fn put_record<T: Tree>(
    tree: &mut T,
    group: u32,
    place: &Path,
    body: &Object,
) -> Result<(), TreeFault>
    requires place { place.now ≡ record_path group }
    ensures performs { IsTrue T.tells → (m : Machine) (removals : List (List ℕ)) →
        body.now ≡ plain (spelling (put_content m group removals)) →
        Performs m (PutRecord group removals) (is_ok result) (T.story tree.old)
        (T.story tree.new) }
    ensures memory { IsTrue T.tells → IsErrOf result TreeFault.Memory →
        T.story tree.new ≡ T.story tree.old }
    ensures faults { CountsFault (IsErrOf result TreeFault.Failed) (T.faults tree.old)
        (T.faults tree.new) }
{
    tree.put(place, body)
}

/// Puts the token with which the gate of a group is opened.
pub fn put_token<T: Tree>(
    tree: &mut T,
    group: u32,
    place: &Path,
    mark: &Object,
) -> Result<(), TreeFault>
    requires place { place.now ≡ token_path group }
    requires mark { mark.now ≡ token }
    ensures performs { IsTrue T.tells → (m : Machine) →
        Performs m (PutToken group) (is_ok result) (T.story tree.old) (T.story tree.new) }
    ensures memory { IsTrue T.tells → IsErrOf result TreeFault.Memory →
        T.story tree.new ≡ T.story tree.old }
    ensures faults { CountsFault (IsErrOf result TreeFault.Failed) (T.faults tree.old)
        (T.faults tree.new) }
{
    tree.put(place, mark)
}

/// Opens the gate of a group.
pub fn open_gate<T: Tree>(tree: &mut T, group: u32, token: &Path, gate: &Path) -> Result<(), Failed>
    requires token { token.now ≡ token_path group }
    requires gate { gate.now ≡ gate_path group }
    requires there { IsTrue T.tells → IsSome ((T.story tree.old).now.holds (token_path group)) }
    ensures performs { IsTrue T.tells → (m : Machine) →
        Performs m (OpenGate group) (is_ok result) (T.story tree.old) (T.story tree.new) }
    ensures faults { CountsFault (IsErr result) (T.faults tree.old) (T.faults tree.new) }
{
    tree.place(token, gate)
}

/// Makes the path of a group's next placement hold what its stage holds.
pub fn place_path<T: Tree>(
    tree: &mut T,
    group: u32,
    stage: &Path,
    path: &Path,
) -> Result<(), Failed>
    requires differ { ¬ (stage.now ≡ path.now) }
    requires there { IsTrue T.tells → IsSome ((T.story tree.old).now.holds stage.now) }
    ensures performs { IsTrue T.tells → (m : Machine) (p : Placement) →
        slice_get (m.roll.standing group).placements (m.roll.standing group).placed ≡ Some p →
        stage.now ≡ stage_path group (m.roll.standing group).placed → path.now ≡ p.path →
        Performs m (PlacePath group) (is_ok result) (T.story tree.old) (T.story tree.new) }
    ensures faults { CountsFault (IsErr result) (T.faults tree.old) (T.faults tree.new) }
{
    tree.place(stage, path)
}

/// Makes the path of a group's next removal hold nothing.
pub fn remove_path<T: Tree>(tree: &mut T, group: u32, path: &Path) -> Result<(), Failed>
    ensures performs { IsTrue T.tells → (m : Machine) →
        slice_get (m.roll.standing group).removals (m.roll.standing group).removed ≡ Some path.now →
        Performs m (RemovePath group) (is_ok result) (T.story tree.old) (T.story tree.new) }
    ensures faults { CountsFault (IsErr result) (T.faults tree.old) (T.faults tree.new) }
{
    tree.remove(path)
}

/// Removes the gate of a group.
pub fn close_gate<T: Tree>(tree: &mut T, group: u32, gate: &Path) -> Result<(), Failed>
    requires gate { gate.now ≡ gate_path group }
    ensures performs { IsTrue T.tells → (m : Machine) →
        Performs m (CloseGate group) (is_ok result) (T.story tree.old) (T.story tree.new) }
    ensures faults { CountsFault (IsErr result) (T.faults tree.old) (T.faults tree.new) }
{
    tree.remove(gate)
}

/// Syncs where the group needs that: each of its four events that sync is this call.
pub fn sync_group<T: Tree>(tree: &mut T, group: u32, needs: bool) -> Result<(), Failed>
    ensures sealed { IsTrue T.tells → (m : Machine) → needs_sync m group ≡ needs →
        Performs m (SyncSealed group) (is_ok result) (T.story tree.old) (T.story tree.new) }
    ensures gate { IsTrue T.tells → (m : Machine) → needs_sync m group ≡ needs →
        Performs m (SyncGate group) (is_ok result) (T.story tree.old) (T.story tree.new) }
    ensures placed { IsTrue T.tells → (m : Machine) → needs_sync m group ≡ needs →
        Performs m (SyncPlaced group) (is_ok result) (T.story tree.old) (T.story tree.new) }
    ensures closed { IsTrue T.tells → (m : Machine) → needs_sync m group ≡ needs →
        Performs m (SyncClosed group) (is_ok result) (T.story tree.old) (T.story tree.new) }
    ensures idle { needs ≡ false → tree.new ≡ tree.old }
    ensures faults { CountsFault (IsErr result) (T.faults tree.old) (T.faults tree.new) }
{
    if needs {
        return tree.sync();
    }
    Ok(())
}

/// A law: an event that asks nothing of the device is performed on any tree.
pub fn quiet_events()
    ensures { QuietPerforms }
{}
