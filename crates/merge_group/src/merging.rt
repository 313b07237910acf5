ghost use Rattle.std.specs.Prelude.{◌≡◌, ◌++◌, ◌∷◌, ◌<◌, [], true, false, length};
ghost use Rattle.std.specs.Prelude.{IfErr, IsErrOf, IsTrue, OnErr, OnOk};
ghost use Rattle.file_tree.specs.Disk.{CountsFault};
ghost use Rattle.merge_core.specs.Payloads.{IsAt};
ghost use Rattle.merge_core.specs.Phase.{was_opened};
ghost use Rattle.merge_core.specs.Steps.{IsTaken};
ghost use Rattle.merge_core.specs.declared.phase.Phase.TheVariants as phases;
ghost use Rattle.merge_core.specs.declared.step.Step.TheVariants as steps;
ghost use Rattle.merge_site.specs.Booking.{wishes_at};
ghost use Rattle.merge_group.specs.Causes.{StopsChanges};
ghost use Rattle.merge_group.specs.Granted.{MayChange, changes_in, wishes_of};
ghost use Rattle.merge_group.specs.Working.{IsAlone, Works, changing, group_in, is_shut};
ghost use Rattle.merge_group.specs.Working.{standing_at, stood_at};

use crate::claiming::claim;
use crate::files::Files;
use crate::opening::{PathChange, change_paths, open, settle};
use crate::sealing::{mark, record};
use crate::staging::{begin, stage_packages};
use crate::stop::Stop;
use file_tree::{Path, Sink, Tree, TreeFault};
use merge_site::Site;

/// Begins a group, makes all that it needs in the journal durable, and claims its paths.
pub(crate) fn build<T: Tree, S: Sink>(
    site: &mut Site<T, S>,
    group: u32,
    removals: Vec<Path>,
    packages: Vec<Files>,
) -> Result<(), Stop>
    requires taken { IsTaken site.old.keeping group steps.Begin }
    requires alone { IsAlone group site.old }
    requires row { group < length site.old.wishes }
    requires unwished { wishes_at site.old.wishes group ≡ [] }
    ensures works { Works group site.old site.new }
    ensures order { site.new.keeping.order ≡ site.old.keeping.order }
    ensures at { OnOk result (IsAt site.new.keeping group phases.Claimed) }
    ensures group { OnOk result
        (group_in site.new group ≡ changing group (changes_in removals.items packages.items)) }
    ensures shut { is_shut (standing_at site.new group).phase ≡ true }
    ensures unopened { was_opened (standing_at site.new group).phase ≡ false }
    ensures quiet { IfErr result (λ e. ¬ (e ≡ Stop.Output)) }
    ensures wishes { OnOk result (wishes_at site.new.wishes group ≡ wishes_of packages.items) }
    ensures let_in { IsTrue T.tells → OnOk result
        (MayChange (stood_at (T.story site.old.opened).now.holds site.old) site.old.book
        site.old.groups (changes_in removals.items packages.items) group) }
    ensures cause { IfErr result (StopsChanges T.tells
        (stood_at (T.story site.old.opened).now.holds site.old) site.old.book site.old.groups
        (changes_in removals.items packages.items) group) }
    ensures sink { site.new.sink ≡ site.old.sink }
    ensures faults { CountsFault (IsErrOf result (Stop.Tree TreeFault.Failed))
        (T.faults site.old.tree) (T.faults site.new.tree) }
{
    site.promise();
    begin(site, group);
    stage_packages(site, group, packages)?;
    record(site, group, removals)?;
    mark(site, group)?;
    site.promise();
    claim(site, group)
}

/// Brings a claimed group into the tree for good.
pub(crate) fn commit<T: Tree, S: Sink>(site: &mut Site<T, S>, group: u32) -> Result<(), Stop>
    requires at { IsAt site.old.keeping group phases.Claimed }
    ensures works { Works group site.old site.new }
    ensures settled { OnOk result
        (site.new.keeping.order ≡ site.old.keeping.order ++ group_in site.old group ∷ []) }
    ensures order { OnErr result (site.new.keeping.order ≡ site.old.keeping.order) }
    ensures at { OnOk result (IsAt site.new.keeping group phases.Placed) }
    ensures group { group_in site.new group ≡ group_in site.old group }
    ensures only { IfErr result (λ e. e ≡ Stop.Tree TreeFault.Failed) }
    ensures sink { site.new.sink ≡ site.old.sink }
    ensures faults { CountsFault (IsErrOf result (Stop.Tree TreeFault.Failed))
        (T.faults site.old.tree) (T.faults site.new.tree) }
{
    open(site, group)?;
    change_paths(site, group, PathChange::Place)?;
    change_paths(site, group, PathChange::Remove)?;
    settle(site, group)
}
