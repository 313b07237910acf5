ghost use Rattle.std.specs.Prelude.{◌≡◌, IfErr, IfOk};
ghost use Rattle.pkg_state.specs.Consistent.{AreApart};
ghost use Rattle.law_commit.specs.Lit.{packages_of};
ghost use Rattle.run_opening.specs.Faults.{out_of_memory};
ghost use Rattle.run_opening.specs.Repairs.{AreCrowded, let_in};

use crate::fault::OpeningFault;
use crate::judging::judge;
use file_tree::TreeFault;
use pkg_state::Broken;
use pms_names::Flags;
use std::alloc::Global;
use vdb_record::Installed;

/// The packages, if no two of them stand on one line.
pub(crate) fn judged_lines(
    alloc: Global,
    packages: Vec<Installed>,
    implicit: &Flags,
) -> Result<Vec<Installed>, OpeningFault>
    ensures same { IfOk result (λ v. v.items ≡ packages.items) }
    ensures apart { IfOk result (λ v. AreApart (packages_of implicit.now v.items)) }
    ensures crowded { IfErr result (AreCrowded implicit.now packages.items) }
    ensures fine { AreApart (packages_of implicit.now packages.items) →
        IfErr result (λ e. e ≡ out_of_memory) }
{
    match judge(alloc, &packages, implicit) {
        Ok(()) => Ok(packages),
        Err(fault) => let_in(fault, packages),
    }
}

/// The packages with this fault, if it isn't that two stand on one line.
fn let_in(fault: Broken, packages: Vec<Installed>) -> Result<Vec<Installed>, OpeningFault>
    ensures { result ≡ let_in fault packages }
{
    match fault {
        Broken::Memory => Err(OpeningFault::from(TreeFault::Memory)),
        Broken::SlotTwice { package, other } => Err(OpeningFault::Inconsistent {
            fault: Broken::SlotTwice { package, other },
            packages,
        }),
        Broken::RequiredUse { .. } => Ok(packages),
        Broken::Blocked { .. } => Ok(packages),
        Broken::Runtime { .. } => Ok(packages),
    }
}
