ghost use Rattle.std.specs.Prelude.{◌≡◌, ◌⊎◌, ◌++◌, ◌∷◌, ◌<◌, [], ℕ, List, suc, true, length, map};
ghost use Rattle.std.specs.Prelude.{IfErr, IsErrOf, IsTrue, OnErr, OnOk, ⊤};
ghost use Rattle.file_tree.specs.Disk.{CountsFault, Rose};
ghost use Rattle.owner_book.specs.Book.{HasSettled};
ghost use Rattle.merge_core.specs.Payloads.{IsAt};
ghost use Rattle.merge_core.specs.Phase.{was_opened};
ghost use Rattle.merge_core.specs.Steps.{IsTaken};
ghost use Rattle.merge_core.specs.declared.phase.Phase.TheVariants as phases;
ghost use Rattle.merge_core.specs.declared.step.Step.TheVariants as steps;
ghost use Rattle.merge_site.specs.Booking.{wishes_at};
ghost use Rattle.merge_group.specs.Applied.{number};
ghost use Rattle.merge_group.specs.Causes.{IsOfGroup, StopsChanges};
ghost use Rattle.merge_group.specs.Granted.{IsAdmitted, changes_in, wishes_of};
ghost use Rattle.merge_group.specs.Lines.{AreLines, line_in};
ghost use Rattle.file_tree.specs.Output.{Wrote};
ghost use Rattle.merge_group.specs.Through.{HasRoom};
ghost use Rattle.merge_group.specs.Working.{IsAlone, Works, changing, group_in, is_shut};
ghost use Rattle.merge_group.specs.Working.{standing_at, stood_at};

use crate::files::Files;
use crate::merging::{build, commit};
use crate::opening::close;
use crate::stop::Stop;
use crate::telling::{add, tell};
use file_tree::{Path, Sink, Tree, TreeFault};
use merge_site::Site;

/// Brings a group into the tree for good, and notes it in the history.
fn merge<T: Tree, S: Sink>(
    site: &mut Site<T, S>,
    group: u32,
    removals: Vec<Path>,
    packages: Vec<Files>,
    history: &mut Vec<u32>,
) -> Result<(), Stop>
    requires taken { IsTaken site.old.keeping group steps.Begin }
    requires alone { IsAlone group site.old }
    requires row { group < length site.old.wishes }
    requires unwished { wishes_at site.old.wishes group ≡ [] }
    requires room { HasRoom 1 history.old }
    requires history { history.old.items ≡ map number site.old.keeping.order }
    ensures works { Works group site.old site.new }
    ensures history { history.new.items ≡ map number site.new.keeping.order }
    ensures merged { OnOk result (history.new.items ≡ history.old.items ++ group ∷ []) }
    ensures one { (history.new.items ≡ history.old.items) ⊎
        (history.new.items ≡ history.old.items ++ group ∷ []) }
    ensures early { IfErr result (λ e. IsOfGroup e → history.new.items ≡ history.old.items) }
    ensures left { (n : ℕ) → HasRoom (suc n) history.old → HasRoom n history.new }
    ensures at { OnOk result (IsAt site.new.keeping group phases.Done) }
    ensures group { OnOk result
        (group_in site.new group ≡ changing group (changes_in removals.items packages.items)) }
    ensures wishes { OnOk result (wishes_at site.new.wishes group ≡ wishes_of packages.items) }
    ensures let_in { IsTrue T.tells → was_opened (standing_at site.new group).phase ≡ true →
        IsAdmitted (stood_at (T.story site.old.opened).now.holds site.old) site.old.book
        site.old.groups (changes_in removals.items packages.items) group (group_in site.new group) }
    ensures shut { (¬ IsErrOf result (Stop.Tree TreeFault.Failed)) →
        is_shut (standing_at site.new group).phase ≡ true }
    ensures quiet { IfErr result (λ e. ¬ (e ≡ Stop.Output)) }
    ensures cause { IfErr result (StopsChanges T.tells
        (stood_at (T.story site.old.opened).now.holds site.old) site.old.book site.old.groups
        (changes_in removals.items packages.items) group) }
    ensures sink { site.new.sink ≡ site.old.sink }
    ensures faults { CountsFault (IsErrOf result (Stop.Tree TreeFault.Failed))
        (T.faults site.old.tree) (T.faults site.new.tree) }
{
    build(site, group, removals, packages)?;
    commit(site, group)?;
    add(history, group);
    close(site, group)
}

/// Merges a group, and writes its line.
pub(crate) fn merge_and_tell<T: Tree, S: Sink>(
    site: &mut Site<T, S>,
    group: u32,
    removals: Vec<Path>,
    packages: Vec<Files>,
    history: &mut Vec<u32>,
    acknowledged: &mut Vec<u32>,
) -> Result<(), Stop>
    requires taken { IsTaken site.old.keeping group steps.Begin }
    requires alone { IsAlone group site.old }
    requires row { group < length site.old.wishes }
    requires unwished { wishes_at site.old.wishes group ≡ [] }
    requires there { group < length site.old.groups }
    requires room { HasRoom 1 history.old }
    requires more { HasRoom 1 acknowledged.old }
    requires history { history.old.items ≡ map number site.old.keeping.order }
    requires all_told { acknowledged.old.items ≡ history.old.items }
    ensures works { Works group site.old site.new }
    ensures history { history.new.items ≡ map number site.new.keeping.order }
    ensures one { (history.new.items ≡ history.old.items) ⊎
        (history.new.items ≡ history.old.items ++ group ∷ []) }
    ensures early { IfErr result (λ e. IsOfGroup e → history.new.items ≡ history.old.items) }
    ensures merged { OnOk result (history.new.items ≡ history.old.items ++ group ∷ []) }
    ensures told { OnOk result (acknowledged.new.items ≡ acknowledged.old.items ++ group ∷ []) }
    ensures untold { OnErr result (acknowledged.new.items ≡ acknowledged.old.items) }
    ensures left { (n : ℕ) → HasRoom (suc n) history.old → HasRoom n history.new }
    ensures more { (n : ℕ) → HasRoom (suc n) acknowledged.old → HasRoom n acknowledged.new }
    ensures at { OnOk result (IsAt site.new.keeping group phases.Told) }
    ensures group { OnOk result
        (group_in site.new group ≡ changing group (changes_in removals.items packages.items)) }
    ensures settled { OnOk result (HasSettled site.old.book site.new.book
        (record { placed = wishes_of packages.items; removed = removals.items })) }
    ensures let_in { IsTrue T.tells → was_opened (standing_at site.new group).phase ≡ true →
        IsAdmitted (stood_at (T.story site.old.opened).now.holds site.old) site.old.book
        site.old.groups (changes_in removals.items packages.items) group (group_in site.new group) }
    ensures shut { (¬ IsErrOf result (Stop.Tree TreeFault.Failed)) →
        is_shut (standing_at site.new group).phase ≡ true }
    ensures written { IsTrue S.tells → (start : List ℕ) →
        Wrote (AreLines ⊤ (line_in site.old.groups) history.old.items acknowledged.old.items)
        start (S.written site.old.sink) →
        Wrote (AreLines (Rose (S.faults site.old.sink) (S.faults site.new.sink))
        (line_in site.old.groups) history.new.items acknowledged.new.items)
        start (S.written site.new.sink) }
    ensures cause { IfErr result (StopsChanges T.tells
        (stood_at (T.story site.old.opened).now.holds site.old) site.old.book site.old.groups
        (changes_in removals.items packages.items) group) }
    ensures device { CountsFault (IsErrOf result (Stop.Tree TreeFault.Failed))
        (T.faults site.old.tree) (T.faults site.new.tree) }
    ensures output { CountsFault (IsErrOf result Stop.Output) (S.faults site.old.sink)
        (S.faults site.new.sink) }
{
    site.promise();
    merge(site, group, removals, packages, history)?;
    tell(site, group)?;
    add(acknowledged, group);
    site.promise();
    Ok(())
}
