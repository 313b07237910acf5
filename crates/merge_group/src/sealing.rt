ghost use Rattle.std.specs.Prelude.{◌≡◌, true, IfErr, IsErrOf, OnOk};
ghost use Rattle.file_tree.specs.Disk.{CountsFault};
ghost use Rattle.merge_core.specs.Payloads.{IsAt};
ghost use Rattle.merge_core.specs.Phase.{may_end};
ghost use Rattle.merge_core.specs.declared.phase.Phase.TheVariants as phases;
ghost use Rattle.merge_group.specs.Causes.{IsPlain, StopsRecord};
ghost use Rattle.merge_group.specs.Working.{Changes, HasStaged, Works, changing, group_in};
ghost use Rattle.merge_group.specs.Working.{standing_at};

use crate::stop::Stop;
use file_tree::{Path, Sink, Tree, TreeFault};
use merge_site::Site;

/// Puts the record of a group that removes these paths.
pub(crate) fn record<T: Tree, S: Sink>(
    site: &mut Site<T, S>,
    group: u32,
    removals: Vec<Path>,
) -> Result<(), Stop>
    requires at { IsAt site.old.keeping group phases.Building }
    ensures works { Works group site.old site.new }
    ensures order { site.new.keeping.order ≡ site.old.keeping.order }
    ensures at { OnOk result (IsAt site.new.keeping group phases.Recorded) }
    ensures group { (c : Changes) → HasStaged c.files (standing_at site.old group) →
        removals.items ≡ c.removals → OnOk result (group_in site.new group ≡ changing group c) }
    ensures early { may_end (standing_at site.new group).phase ≡ true }
    ensures quiet { IfErr result (λ e. ¬ (e ≡ Stop.Output)) }
    ensures cause { (c : Changes) → HasStaged c.files (standing_at site.old group) →
        removals.items ≡ c.removals → IfErr result (StopsRecord group c) }
    ensures wishes { OnOk result (site.new.wishes ≡ site.old.wishes) }
    ensures sink { site.new.sink ≡ site.old.sink }
    ensures faults { CountsFault (IsErrOf result (Stop.Tree TreeFault.Failed))
        (T.faults site.old.tree) (T.faults site.new.tree) }
{
    site.put_record(group, removals)?;
    Ok(())
}

/// Puts the token of a group, and makes its files durable.
pub(crate) fn mark<T: Tree, S: Sink>(site: &mut Site<T, S>, group: u32) -> Result<(), Stop>
    requires at { IsAt site.old.keeping group phases.Recorded }
    ensures works { Works group site.old site.new }
    ensures order { site.new.keeping.order ≡ site.old.keeping.order }
    ensures at { OnOk result (IsAt site.new.keeping group phases.Sealed) }
    ensures group { group_in site.new group ≡ group_in site.old group }
    ensures early { may_end (standing_at site.new group).phase ≡ true }
    ensures quiet { IfErr result (λ e. ¬ (e ≡ Stop.Output)) }
    ensures plain { IfErr result IsPlain }
    ensures wishes { OnOk result (site.new.wishes ≡ site.old.wishes) }
    ensures sink { site.new.sink ≡ site.old.sink }
    ensures faults { CountsFault (IsErrOf result (Stop.Tree TreeFault.Failed))
        (T.faults site.old.tree) (T.faults site.new.tree) }
{
    site.put_token(group)?;
    site.sync_sealed(group)?;
    Ok(())
}
