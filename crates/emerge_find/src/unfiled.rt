use dep_atom::Atom;
use emerge_choose::NotTaken;
use plan_rules::PlanRefused;
use std::alloc::AllocError;

/// Why the groups of a file make no plan.
#[derive(Debug, Drop)]
pub(crate) enum Unfiled {
    /// The first addition that isn't offered, as an atom, and the candidates of its name.
    NoCandidate { atom: Atom, reasons: Vec<NotTaken> },
    /// An addition has a flag that its package doesn't know.
    BadFlag,
    /// The plan breaks a rule of the check.
    Refused(PlanRefused),
    /// Memory ran out.
    Memory,
}

impl From<AllocError> for Unfiled {
    ghost use Rattle.std.specs.Prelude.{◌≡◌};
    ghost use Rattle.emerge_find.specs.declared.unfiled.Unfiled.TheVariants.{Memory};

    ghost from_gives = { λ _ e. e ≡ Memory };

    fn from(_: AllocError) -> Unfiled {
        Unfiled::Memory
    }
}
