ghost use Rattle.std.specs.Prelude.{◌≡◌, ◌++◌, ◌<◌, List, [], true, IfErr, IsErrOf, OnOk, length};
ghost use Rattle.file_tree.specs.Disk.{CountsFault};
ghost use Rattle.merge_core.specs.Payloads.{IsAt};
ghost use Rattle.merge_core.specs.Phase.{may_end};
ghost use Rattle.merge_core.specs.Steps.{IsTaken};
ghost use Rattle.merge_core.specs.declared.phase.Phase.TheVariants as phases;
ghost use Rattle.merge_core.specs.declared.step.Step.TheVariants as steps;
ghost use Rattle.merge_fit.specs.Misfits.{AreGood};
ghost use Rattle.merge_site.specs.Booking.{wishes_at};
ghost use Rattle.merge_group.specs.Causes.{StopsStages};
ghost use Rattle.merge_group.specs.Granted.{wishes_for, wishes_in, wishes_of};
ghost use Rattle.merge_group.specs.Working.{HasStaged, Works, all_in, all_of, standing_at};

use crate::files::Files;
use crate::stop::Stop;
use file_tree::{Entry, Sink, Tree, TreeFault};
use merge_record::OwnerKey;
use merge_site::Site;

/// A group begins.
pub(crate) fn begin<T: Tree, S: Sink>(site: &mut Site<T, S>, group: u32)
    requires taken { IsTaken site.old.keeping group steps.Begin }
    ensures works { Works group site.old site.new }
    ensures order { site.new.keeping.order ≡ site.old.keeping.order }
    ensures at { IsAt site.new.keeping group phases.Building }
    ensures staged { HasStaged [] (standing_at site.new group) }
    ensures wishes { site.new.wishes ≡ site.old.wishes }
    ensures sink { site.new.sink ≡ site.old.sink }
    ensures tree { site.new.tree ≡ site.old.tree }
{
    site.begin(group);
}

/// Stages files of a group, behind those that it has.
fn stage_all<T: Tree, S: Sink>(
    site: &mut Site<T, S>,
    group: u32,
    owner: OwnerKey,
    folder: bool,
    files: Vec<Entry>,
) -> Result<(), Stop>
    requires at { IsAt site.old.keeping group phases.Building }
    requires row { group < length site.old.wishes }
    ensures works { Works group site.old site.new }
    ensures order { site.new.keeping.order ≡ site.old.keeping.order }
    ensures at { OnOk result (IsAt site.new.keeping group phases.Building) }
    ensures staged { (before : List Entry) → HasStaged before (standing_at site.old group) →
        OnOk result (HasStaged (before ++ files.items) (standing_at site.new group)) }
    ensures early { may_end (standing_at site.new group).phase ≡ true }
    ensures quiet { IfErr result (λ e. ¬ (e ≡ Stop.Output)) }
    ensures cause { (before : List Entry) → HasStaged before (standing_at site.old group) →
        IfErr result (StopsStages before files.items) }
    ensures good { OnOk result (AreGood files.items) }
    ensures wishes { OnOk result (wishes_at site.new.wishes group ≡
        wishes_at site.old.wishes group ++ wishes_for owner folder files.items) }
    ensures rows { OnOk result (length site.new.wishes ≡ length site.old.wishes) }
    ensures sink { site.new.sink ≡ site.old.sink }
    ensures faults { CountsFault (IsErrOf result (Stop.Tree TreeFault.Failed))
        (T.faults site.old.tree) (T.faults site.new.tree) }
{
    for file in files {
        site.stage(group, owner, folder, file)?;
    }
    Ok(())
}

/// Stages all that a package places, behind what the group has.
fn stage_files<T: Tree, S: Sink>(
    site: &mut Site<T, S>,
    group: u32,
    files: Files,
) -> Result<(), Stop>
    requires at { IsAt site.old.keeping group phases.Building }
    requires row { group < length site.old.wishes }
    ensures works { Works group site.old site.new }
    ensures order { site.new.keeping.order ≡ site.old.keeping.order }
    ensures at { OnOk result (IsAt site.new.keeping group phases.Building) }
    ensures staged { (before : List Entry) → HasStaged before (standing_at site.old group) →
        OnOk result (HasStaged (before ++ all_in files) (standing_at site.new group)) }
    ensures early { may_end (standing_at site.new group).phase ≡ true }
    ensures quiet { IfErr result (λ e. ¬ (e ≡ Stop.Output)) }
    ensures cause { (before : List Entry) → HasStaged before (standing_at site.old group) →
        IfErr result (StopsStages before (all_in files)) }
    ensures good { OnOk result (AreGood (all_in files)) }
    ensures wishes { OnOk result (wishes_at site.new.wishes group ≡
        wishes_at site.old.wishes group ++ wishes_in files) }
    ensures rows { OnOk result (length site.new.wishes ≡ length site.old.wishes) }
    ensures sink { site.new.sink ≡ site.old.sink }
    ensures faults { CountsFault (IsErrOf result (Stop.Tree TreeFault.Failed))
        (T.faults site.old.tree) (T.faults site.new.tree) }
{
    let Files {
        owner,
        image,
        folder,
    } = files;
    stage_all(site, group, owner, false, image)?;
    stage_all(site, group, owner, true, folder)
}

/// Stages all that some packages place, package by package, of a group that has begun.
pub(crate) fn stage_packages<T: Tree, S: Sink>(
    site: &mut Site<T, S>,
    group: u32,
    packages: Vec<Files>,
) -> Result<(), Stop>
    requires at { IsAt site.old.keeping group phases.Building }
    requires staged { HasStaged [] (standing_at site.old group) }
    requires row { group < length site.old.wishes }
    requires unwished { wishes_at site.old.wishes group ≡ [] }
    ensures works { Works group site.old site.new }
    ensures order { site.new.keeping.order ≡ site.old.keeping.order }
    ensures at { OnOk result (IsAt site.new.keeping group phases.Building) }
    ensures staged { OnOk result
        (HasStaged (all_of packages.items) (standing_at site.new group)) }
    ensures early { may_end (standing_at site.new group).phase ≡ true }
    ensures quiet { IfErr result (λ e. ¬ (e ≡ Stop.Output)) }
    ensures cause { IfErr result (StopsStages [] (all_of packages.items)) }
    ensures good { OnOk result (AreGood (all_of packages.items)) }
    ensures wishes { OnOk result
        (wishes_at site.new.wishes group ≡ wishes_of packages.items) }
    ensures sink { site.new.sink ≡ site.old.sink }
    ensures faults { CountsFault (IsErrOf result (Stop.Tree TreeFault.Failed))
        (T.faults site.old.tree) (T.faults site.new.tree) }
{
    for files in packages {
        stage_files(site, group, files)?;
    }
    Ok(())
}
