ghost use Rattle.std.specs.Prelude.{◌≡◌, ◌&&◌, ℕ, List, IfOk};
ghost use Rattle.pms_names.specs.Flags.{has};

use dep_atom::Facts;
use pms_names::Flags;
use std::alloc::{AllocError, Global};

/// The flags that a package's record has as enabled: those of its own. The flags that a run has
/// enabled for every package aren't recorded.
pub fn recorded_flags(alloc: Global, facts: &Facts) -> Result<Flags, AllocError>
    ensures { IfOk result (λ set. (q : List ℕ) →
        has set q ≡ (has facts.now.iuse q && has facts.now.enabled q)) }
{
    let mut flags = Flags::new(alloc);
    for flag in facts.enabled.list() {
        if facts.iuse.has(flag) {
            let _ = flags.insert(flag.try_clone()?)?;
        }
    }
    Ok(flags)
}
