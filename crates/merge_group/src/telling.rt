ghost use Rattle.std.specs.Prelude.{◌≡◌, ◌++◌, ◌∷◌, ◌<◌, [], ℕ, suc, true, length, take};
ghost use Rattle.std.specs.Prelude.{IfErr, IsErrOf, IsTrue, OnOk};
ghost use Rattle.file_tree.specs.Disk.{CountsFault};
ghost use Rattle.merge_core.specs.Payloads.{IsAt};
ghost use Rattle.merge_core.specs.declared.phase.Phase.TheVariants as phases;
ghost use Rattle.merge_group.specs.Lines.{line_in};
ghost use Rattle.merge_group.specs.Through.{HasRoom};
ghost use Rattle.merge_group.specs.Working.{Works, group_in, is_shut, standing_at};

use crate::stop::Stop;
use file_tree::{Sink, Tree, TreeFault};
use merge_site::Site;

/// Puts a number behind a list that has the room.
pub(crate) fn add(list: &mut Vec<u32>, number: u32)
    requires room { HasRoom 1 list.old }
    ensures items { list.new.items ≡ list.old.items ++ number ∷ [] }
    ensures left { (n : ℕ) → HasRoom (suc n) list.old → HasRoom n list.new }
{
    list.push(number).unwrap();
}

/// Writes the line of a group that is done.
pub(crate) fn tell<T: Tree, S: Sink>(site: &mut Site<T, S>, group: u32) -> Result<(), Stop>
    requires at { IsAt site.old.keeping group phases.Done }
    requires there { group < length site.old.groups }
    ensures works { Works group site.old site.new }
    ensures order { site.new.keeping.order ≡ site.old.keeping.order }
    ensures group { group_in site.new group ≡ group_in site.old group }
    ensures at { OnOk result (IsAt site.new.keeping group phases.Told) }
    ensures shut { is_shut (standing_at site.new group).phase ≡ true }
    ensures written { IsTrue S.tells → OnOk result (S.written site.new.sink ≡
        S.written site.old.sink ++ line_in site.old.groups group) }
    ensures part { IsTrue S.tells → (n : ℕ) × (S.written site.new.sink ≡
        S.written site.old.sink ++ take n (line_in site.old.groups group)) }
    ensures only { IfErr result (λ e. e ≡ Stop.Output) }
    ensures cause { (¬ IsErrOf result (Stop.Tree TreeFault.Failed)) ×
        (¬ IsErrOf result (Stop.Tree TreeFault.Memory)) }
    ensures tree { site.new.tree ≡ site.old.tree }
    ensures faults { CountsFault (IsErrOf result Stop.Output) (S.faults site.old.sink)
        (S.faults site.new.sink) }
{
    match site.acknowledge(group) {
        Ok(()) => Ok(()),
        Err(_) => Err(Stop::Output),
    }
}
