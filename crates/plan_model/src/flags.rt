ghost use Rattle.std.specs.Prelude.{IfOk};
ghost use Rattle.plan_model.specs.Offers.{AreOn};

use pms_names::Flags;
use std::alloc::AllocError;

/// The flags of the text, and the implicit ones.
pub(crate) fn flags_on(text: &Flags, implicit: &Flags) -> Result<Flags, AllocError>
    ensures { IfOk result (λ on. AreOn text.now implicit.now on) }
{
    let mut on = implicit.try_clone()?;
    for flag in text.list() {
        on.insert(flag.try_clone()?)?;
    }
    let _listed = on.list();
    Ok(on)
}
