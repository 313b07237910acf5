ghost use Rattle.vdb_files.specs.Recorded.{AreNamed, IsFlagSet};

use dep_atom::Facts;
use pms_names::Flags;

/// A law: the slots and the flags of a package are names, as their types promise.
pub fn facts_are_named(facts: &Facts)
    ensures { AreNamed facts.now }
{
    let _ = facts.slot.text();
    let _ = facts.subslot.text();
    flags_are_named(&facts.iuse);
    flags_are_named(&facts.enabled);
}

fn flags_are_named(flags: &Flags)
    ensures { IsFlagSet flags.now }
{
    for flag in flags.list() {
        let _ = flag.text();
    }
}
