ghost use Rattle.std.specs.Prelude.{◌≡◌};
ghost use Rattle.md5_cache.specs.declared.fault.FieldFault.TheVariants as faults;
ghost use Rattle.md5_cache.specs.declared.fault.PairFault.TheVariants.{Memory};

use basics::Text;
use std::alloc::{AllocError, AllocFailed};
use thiserror::Error;

/// Why a text is no list of pairs. Where several hold, the first of these is given.
#[derive(Debug, Drop, Error)]
pub enum PairFault {
    #[error("an entry that is not UTF-8")]
    NotUtf8,
    /// The first line without an equals sign, counted from 1.
    #[error("line {line} has no equals sign")]
    NoEquals { line: u32 },
    /// The first key that comes a second time.
    #[error("a key that stands twice")]
    Repeated { key: Text },
    #[error("out of memory")]
    Memory,
}

/// Why pairs are none of an entry. Where several hold, the first of these is given.
#[derive(Debug, Drop, Error)]
pub enum FieldFault {
    /// The text of EAPI, where no edition that is read has it.
    #[error("another edition")]
    Eapi { text: Text },
    /// The first of EAPI, SLOT and `_md5_` that is absent, else that of the first line whose value
    /// isn't in form.
    #[error("a field that is absent or not in form")]
    Field { key: Text },
    #[error("out of memory")]
    Memory,
}

/// Why a text is no entry of a package with this ebuild. Where several hold, the first of these is
/// given.
#[derive(Debug, Drop, Error)]
pub enum CacheFault {
    #[error("an entry that is not UTF-8")]
    NotUtf8,
    /// The first line without an equals sign, counted from 1.
    #[error("line {line} has no equals sign")]
    NoEquals { line: u32 },
    /// The first key that comes a second time.
    #[error("a key that stands twice")]
    Repeated { key: Text },
    /// The text of EAPI, where no edition that is read has it.
    #[error("another edition")]
    Eapi { text: Text },
    /// The first of EAPI, SLOT and `_md5_` that is absent, else that of the first line whose value
    /// isn't in form.
    #[error("a field that is absent or not in form")]
    Field { key: Text },
    /// The MD5 of the ebuild isn't the one that the entry records.
    #[error("made of another ebuild")]
    Stale { recorded: [u8; 16], found: [u8; 16] },
    #[error("out of memory")]
    Memory,
}

impl From<PairFault> for CacheFault {
    ghost use Rattle.md5_cache.specs.EntryFaults.{of_pairs};

    ghost from_gives = { λ f e. e ≡ of_pairs f };

    fn from(fault: PairFault) -> CacheFault {
        match fault {
            PairFault::NotUtf8 => CacheFault::NotUtf8,
            PairFault::NoEquals { line } => CacheFault::NoEquals { line },
            PairFault::Repeated { key } => CacheFault::Repeated { key },
            PairFault::Memory => CacheFault::Memory,
        }
    }
}

impl From<FieldFault> for CacheFault {
    ghost use Rattle.md5_cache.specs.EntryFaults.{of_fields};

    ghost from_gives = { λ f e. e ≡ of_fields f };

    fn from(fault: FieldFault) -> CacheFault {
        match fault {
            FieldFault::Eapi { text } => CacheFault::Eapi { text },
            FieldFault::Field { key } => CacheFault::Field { key },
            FieldFault::Memory => CacheFault::Memory,
        }
    }
}

impl From<AllocError> for CacheFault {
    ghost use Rattle.md5_cache.specs.declared.fault.CacheFault.TheVariants as cache_faults;

    ghost from_gives = { λ _ e. e ≡ cache_faults.Memory };

    fn from(_e: AllocError) -> CacheFault {
        CacheFault::Memory
    }
}

impl From<AllocError> for FieldFault {
    ghost from_gives = { λ _ e. e ≡ faults.Memory };

    fn from(_e: AllocError) -> FieldFault {
        FieldFault::Memory
    }
}

impl From<AllocError> for PairFault {
    ghost from_gives = { λ _ e. e ≡ Memory };

    fn from(_e: AllocError) -> PairFault {
        PairFault::Memory
    }
}

impl<T: Drop> From<AllocFailed<T>> for PairFault {
    ghost from_gives = { λ _ e. e ≡ Memory };

    fn from(_e: AllocFailed<T>) -> PairFault {
        PairFault::Memory
    }
}
