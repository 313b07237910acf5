ghost use Rattle.std.specs.Prelude.{◌≡◌, IfOk, true};
ghost use Rattle.plan_text.specs.Words.{rise};

use pms_names::{Flag, Flags};
use std::alloc::{AllocError, Global};

/// The set of flags that rise in byte order.
pub(crate) fn set_of(alloc: Global, flags: &[Flag]) -> Result<Flags, AllocError>
    requires { rise flags.now ≡ true }
    ensures { IfOk result (λ set. set ≡ flags.now) }
{
    let mut set = Flags::new(alloc);
    for flag in flags {
        set.insert(flag.try_clone()?)?;
    }
    Ok(set)
}
