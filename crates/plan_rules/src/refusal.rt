ghost use Rattle.std.specs.Prelude.{◌≡◌, IfOk};
ghost use Rattle.plan_rules.specs.declared.refusal.PlanRefused.TheVariants.{Occupied};

use dep_atom::{Atom, Bind, PackageId};
use pkg_state::{Broken, Class, LineName, Pkg};
use std::alloc::{AllocError, AllocFailed};
use thiserror::Error;

/// Why a plan is not accepted. A group is told by its number, which is one more than its place; 0
/// stands for the packages that are there at the beginning.
#[derive(Debug, Drop, Error)]
pub enum PlanRefused {
    #[error("two groups change a line, and neither waits for the other")]
    Line {
        line: LineName,
        group: usize,
        other: usize,
    },
    #[error("a package that is removed is not there")]
    Absent {
        group: usize,
        package: PackageId,
    },
    #[error("another package is in the way of one that is added")]
    Occupied {
        group: usize,
        package: PackageId,
        other: PackageId,
    },
    #[error("the packages are not consistent to begin with")]
    Opening(Broken),
    #[error("the flags of a package that is added do not go together")]
    RequiredUse {
        package: PackageId,
    },
    /// The first place where the binds aren't right: its leaf, or none behind the last leaf that
    /// asks, and the bind that stands there, or none behind the last bind.
    #[error("a slot operator of a package that is added is not bound as it should be")]
    Binding {
        package: PackageId,
        leaf: Option<Atom>,
        found: Option<Bind>,
    },
    #[error("what a package needs while it runs is missing")]
    Unsatisfied {
        group: usize,
        package: PackageId,
        class: Class,
        leaf: Option<Atom>,
    },
    /// `meeting` has the groups that may come while the package is there and that bring or take away
    /// what its RDEPEND asks for or keeps out, rising.
    #[error("what a package needs while it runs may be missing at some time")]
    Unsafe {
        package: PackageId,
        class: Class,
        leaf: Option<Atom>,
        meeting: Vec<usize>,
    },
    #[error("a package is there with another one that it blocks")]
    Blocked {
        package: PackageId,
        other: PackageId,
    },
    #[error("a package that bars another one is there when that may come")]
    Barred {
        group: usize,
        package: PackageId,
        other: PackageId,
    },
    #[error("what a package wants for its build may be missing")]
    Build {
        group: usize,
        package: PackageId,
        class: Class,
        leaf: Option<Atom>,
    },
    #[error("what a package wants later is missing at the end")]
    Final {
        package: PackageId,
        leaf: Option<Atom>,
    },
    #[error("out of memory")]
    Memory,
}

impl From<AllocError> for PlanRefused {
    ghost use Rattle.std.specs.Prelude.{◌≡◌};
    ghost use Rattle.plan_rules.specs.declared.refusal.PlanRefused.TheVariants.{Memory};

    ghost from_gives = { λ _ e. e ≡ Memory };

    fn from(_e: AllocError) -> PlanRefused {
        PlanRefused::Memory
    }
}

impl<T: Drop> From<AllocFailed<T>> for PlanRefused {
    ghost use Rattle.std.specs.Prelude.{◌≡◌};
    ghost use Rattle.plan_rules.specs.declared.refusal.PlanRefused.TheVariants.{Memory};

    ghost from_gives = { λ _ e. e ≡ Memory };

    fn from(_e: AllocFailed<T>) -> PlanRefused {
        PlanRefused::Memory
    }
}

/// The refusal of a package that another one is in the way of, in the group of this number.
pub(crate) fn occupied(group: usize, pkg: &Pkg, other: &Pkg) -> Result<PlanRefused, AllocError>
    ensures { IfOk result (λ e. e ≡ Occupied group pkg.now.facts.id other.now.facts.id) }
{
    let package = pkg.facts.id.try_clone()?;
    let other = other.facts.id.try_clone()?;
    Ok(PlanRefused::Occupied {
        group,
        package,
        other,
    })
}
