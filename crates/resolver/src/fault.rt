ghost use Rattle.std.specs.Prelude.{◌≡◌};
ghost use Rattle.resolver.specs.declared.fault.ResolveFault.TheVariants.{Memory};

use choice_tree::Choice;
use std::alloc::AllocError;
use thiserror::Error;

/// Why there is no choice.
#[derive(Debug, Drop, Error)]
pub enum ResolveFault {
    /// These choices were tried, in their order, all in vain.
    #[error("there is no solution")]
    NoSolution { refuted: Vec<Choice> },
    /// So many choices were tried in vain: these, in their order.
    #[error("the limit of choices that are tried in vain is reached")]
    BacktrackLimit { refuted: Vec<Choice> },
    #[error("out of memory")]
    Memory,
}

impl From<AllocError> for ResolveFault {
    ghost from_gives = { λ _ e. e ≡ Memory };

    fn from(_e: AllocError) -> ResolveFault {
        ResolveFault::Memory
    }
}
