ghost use Rattle.std.specs.Prelude.{◌≡◌, IfErr, IsErrOf, IsTrue, OnOk};
ghost use Rattle.file_tree.specs.Disk.{CountsFault};
ghost use Rattle.merge_core.specs.Payloads.{IsAt};
ghost use Rattle.merge_core.specs.declared.phase.Phase.TheVariants as phases;
ghost use Rattle.merge_group.specs.Causes.{StopsChanges};
ghost use Rattle.merge_group.specs.Granted.{HasBuilt, MayChange};
ghost use Rattle.merge_group.specs.Working.{Changes, Claims, stood_at};

use crate::stop::Stop;
use file_tree::{Sink, Tree, TreeFault};
use merge_site::Site;

/// Claims the paths of a sealed group. A claim that is stopped leaves it sealed.
pub(crate) fn claim<T: Tree, S: Sink>(site: &mut Site<T, S>, group: u32) -> Result<(), Stop>
    requires at { IsAt site.old.keeping group phases.Sealed }
    ensures claims { Claims group site.old site.new }
    ensures at { OnOk result (IsAt site.new.keeping group phases.Claimed) }
    ensures quiet { IfErr result (λ e. ¬ (e ≡ Stop.Output)) }
    ensures granted { (c : Changes) → HasBuilt c group site.old → IsTrue T.tells →
        OnOk result (MayChange (stood_at (T.story site.old.opened).now.holds site.old)
        site.old.book site.old.groups c group) }
    ensures cause { (c : Changes) → HasBuilt c group site.old →
        IfErr result (StopsChanges T.tells (stood_at (T.story site.old.opened).now.holds site.old)
        site.old.book site.old.groups c group) }
    ensures sink { site.new.sink ≡ site.old.sink }
    ensures faults { CountsFault (IsErrOf result (Stop.Tree TreeFault.Failed))
        (T.faults site.old.tree) (T.faults site.new.tree) }
{
    site.promise();
    site.claim(group)?;
    Ok(())
}
