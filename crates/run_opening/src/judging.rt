ghost use Rattle.std.specs.Prelude.{◌≡◌, IfErr, IfOk, IfSome, OnOk};
ghost use Rattle.pkg_state.specs.Consistent.{AreConsistent};
ghost use Rattle.pkg_state.specs.Fault.{told};
ghost use Rattle.pkg_state.specs.declared.broken.Broken.TheVariants.{Memory};
ghost use Rattle.law_commit.specs.Lit.{packages_of};
ghost use Rattle.run_opening.specs.Faults.{IsUnfit, out_of_memory, refusal_of};
ghost use Rattle.run_opening.specs.Order.{IsFirstInOrder};

use crate::fault::OpeningFault;
use crate::order::in_line_order;
use file_tree::TreeFault;
use pkg_state::{Broken, consistent};
use pms_names::Flags;
use std::alloc::Global;
use vdb_record::Installed;

/// The packages, if they go together with these flags on beside their own.
pub(crate) fn judged(
    alloc: Global,
    packages: Vec<Installed>,
    implicit: &Flags,
) -> Result<Vec<Installed>, OpeningFault>
    ensures same { IfOk result (λ v. v.items ≡ packages.items) }
    ensures consistent { IfOk result (λ v. AreConsistent (packages_of implicit.now v.items)) }
    ensures unfit { IfErr result (IsUnfit implicit.now packages.items) }
    ensures fine { AreConsistent (packages_of implicit.now packages.items) →
        IfErr result (λ e. e ≡ out_of_memory) }
{
    match judge(alloc, &packages, implicit) {
        Ok(()) => Ok(packages),
        Err(fault) => Err(refusal_of(fault, packages)),
    }
}

/// Judges the packages in line order.
pub(crate) fn judge(alloc: Global, packages: &[Installed], implicit: &Flags) -> Result<(), Broken>
    ensures ok { OnOk result (AreConsistent (packages_of implicit.now packages.now)) }
    ensures fault { IfErr result
        (λ e. IfSome (told e) (IsFirstInOrder (packages_of implicit.now packages.now))) }
    ensures fine { AreConsistent (packages_of implicit.now packages.now) →
        IfErr result (λ e. e ≡ Memory) }
{
    let ordered = in_line_order(alloc, packages, implicit)?;
    consistent(alloc, &ordered)
}

fn refusal_of(fault: Broken, packages: Vec<Installed>) -> OpeningFault
    ensures { result ≡ refusal_of fault packages }
{
    match fault {
        Broken::Memory => OpeningFault::from(TreeFault::Memory),
        fault => OpeningFault::Inconsistent { fault, packages },
    }
}
