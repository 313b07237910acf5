ghost use Rattle.std.specs.Prelude.{◌≡◌};

use std::alloc::AllocError;

/// Why a candidate isn't visible. Where several hold, the first of these is given.
#[derive(Clone, Copy, Debug, PartialEq, Eq)]
pub enum Reason {
    /// It has no ebuild. A link is none.
    NoEbuild,
    /// Its entry is of another edition.
    Eapi,
    /// Its entry was made of another ebuild.
    Stale,
    /// Its entry has another fault.
    BadEntry,
    /// None of its keywords is accepted.
    Keyword,
    /// It is masked.
    Masked,
}

/// Why a candidate isn't told as a visible one.
#[derive(Clone, Copy, Debug, PartialEq, Eq)]
pub enum Refusal {
    Hidden(Reason),
    Memory,
}

impl From<AllocError> for Refusal {
    ghost use Rattle.visible_verdicts.specs.declared.reason.Refusal.TheVariants.{Memory};

    ghost from_gives = { λ _ e. e ≡ Memory };

    fn from(_: AllocError) -> Refusal {
        Refusal::Memory
    }
}
