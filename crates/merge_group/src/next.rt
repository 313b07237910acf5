ghost use Rattle.std.specs.Prelude.{◌<◌, ◌++◌, ◌∷◌, [], ℕ, List, suc, length};
ghost use Rattle.std.specs.Prelude.{IfErr, IsErrOf, IsTrue, OnOk, ⊤};
ghost use Rattle.file_tree.specs.Disk.{CountsFault, Rose};
ghost use Rattle.merge_group.specs.Lines.{AreLines, line_in};
ghost use Rattle.file_tree.specs.Output.{Wrote};
ghost use Rattle.merge_group.specs.Runs.{EndsAt, IsNew, IsUnderWay};
ghost use Rattle.merge_group.specs.Through.{HasRoom};
ghost use Rattle.merge_site.specs.Site.{IsSameSite};
ghost use Rattle.merge_group.specs.declared.turn.Turn.{Turn};

use crate::running::merge_and_tell;
use crate::stop::Stop;
use crate::turn::Turn;
use file_tree::{Sink, Tree, TreeFault};
use merge_site::Site;

/// Merges the group of the next turn of a run, and writes its line.
pub fn merge_next<T: Tree, S: Sink>(
    site: &mut Site<T, S>,
    turn: Turn,
    history: &mut Vec<u32>,
    acknowledged: &mut Vec<u32>,
) -> Result<(), Stop>
    requires begun { (ts : List Turn) × IsNew ts turn × IsUnderWay T.tells
        (T.story site.old.opened).now.holds ts history.old.items acknowledged.old.items site.old }
    requires there { turn.group < length site.old.groups }
    requires room { HasRoom 1 history.old }
    requires more { HasRoom 1 acknowledged.old }
    ensures same { IsSameSite site.old site.new }
    ensures merged { (ts : List Turn) → IsNew ts turn → IsUnderWay T.tells
        (T.story site.old.opened).now.holds ts history.old.items acknowledged.old.items site.old →
        OnOk result (IsUnderWay T.tells (T.story site.old.opened).now.holds (ts ++ turn ∷ [])
        history.new.items acknowledged.new.items site.new) }
    ensures stopped { (ts : List Turn) → IsNew ts turn → IsUnderWay T.tells
        (T.story site.old.opened).now.holds ts history.old.items acknowledged.old.items site.old →
        IfErr result (EndsAt T.tells (T.story site.old.opened).now.holds (ts ++ turn ∷ [])
        history.new.items acknowledged.new.items site.new) }
    ensures left { (n : ℕ) → HasRoom (suc n) history.old → HasRoom n history.new }
    ensures more { (n : ℕ) → HasRoom (suc n) acknowledged.old → HasRoom n acknowledged.new }
    ensures written { IsTrue S.tells → (start : List ℕ) →
        Wrote (AreLines ⊤ (line_in site.old.groups) history.old.items acknowledged.old.items)
        start (S.written site.old.sink) →
        Wrote (AreLines (Rose (S.faults site.old.sink) (S.faults site.new.sink))
        (line_in site.old.groups) history.new.items acknowledged.new.items)
        start (S.written site.new.sink) }
    ensures device { CountsFault (IsErrOf result (Stop.Tree TreeFault.Failed))
        (T.faults site.old.tree) (T.faults site.new.tree) }
    ensures output { CountsFault (IsErrOf result Stop.Output) (S.faults site.old.sink)
        (S.faults site.new.sink) }
{
    site.promise();
    let Turn {
        group,
        removals,
        packages,
    } = turn;
    merge_and_tell(site, group, removals, packages, history, acknowledged)
}
