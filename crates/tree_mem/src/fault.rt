use file_tree::Path;
use std::alloc::{AllocError, AllocFailed};
use thiserror::Error;

/// Why no tree was made of a list of objects.
#[derive(Debug, Drop, Error)]
pub enum MemFault {
    /// The first path that stands in the list a second time.
    #[error("two objects have one path")]
    Twice { path: Path },
    #[error("out of memory")]
    Memory,
}

impl From<AllocError> for MemFault {
    ghost use Rattle.std.specs.Prelude.{◌≡◌};
    ghost use Rattle.tree_mem.specs.declared.fault.MemFault.TheVariants.{Memory};

    ghost from_gives = { λ _ e. e ≡ Memory };

    fn from(_: AllocError) -> MemFault {
        MemFault::Memory
    }
}

impl<T: Drop> From<AllocFailed<T>> for MemFault {
    ghost use Rattle.std.specs.Prelude.{◌≡◌};
    ghost use Rattle.tree_mem.specs.declared.fault.MemFault.TheVariants.{Memory};

    ghost from_gives = { λ _ e. e ≡ Memory };

    fn from(_: AllocFailed<T>) -> MemFault {
        MemFault::Memory
    }
}

/// Why no image was made by a choice.
#[derive(Debug, Drop, Error)]
pub enum ImageFault {
    /// The first path of the choice that is not touched.
    #[error("a path of the choice is not touched")]
    NotTouched { path: Path },
    #[error("out of memory")]
    Memory,
}

impl From<AllocError> for ImageFault {
    ghost use Rattle.std.specs.Prelude.{◌≡◌};
    ghost use Rattle.tree_mem.specs.declared.fault.ImageFault.TheVariants.{Memory};

    ghost from_gives = { λ _ e. e ≡ Memory };

    fn from(_: AllocError) -> ImageFault {
        ImageFault::Memory
    }
}

impl<T: Drop> From<AllocFailed<T>> for ImageFault {
    ghost use Rattle.std.specs.Prelude.{◌≡◌};
    ghost use Rattle.tree_mem.specs.declared.fault.ImageFault.TheVariants.{Memory};

    ghost from_gives = { λ _ e. e ≡ Memory };

    fn from(_: AllocFailed<T>) -> ImageFault {
        ImageFault::Memory
    }
}
