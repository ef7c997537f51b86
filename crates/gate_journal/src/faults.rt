//! Why a journal half isn't loaded, cleared or written.
ghost use Rattle.std.specs.Prelude.{◌≡◌};

use disk_model::DiskFailed;
use std::alloc::{AllocError, AllocFailed};
use thiserror::Error;

/// Why a batch isn't appended, or a half isn't cleared.
#[derive(Clone, Copy, Debug, PartialEq, Eq, Drop, Error)]
pub enum JournalFault {
    /// The disk failed: its count of faults rose.
    #[error("the disk failed")]
    Device,
    /// Memory was wanting, before any call on the disk.
    #[error("no memory")]
    NoMemory,
}

/// Why a half isn't loaded.
#[derive(Clone, Copy, Debug, PartialEq, Eq, Drop, Error)]
pub enum LoadFault {
    /// The disk failed: its count of faults rose.
    #[error("the disk failed")]
    Device,
    /// Memory was wanting. It says nothing of the journal.
    #[error("no memory")]
    NoMemory,
    /// An open batch breaks the format: the first such, counted from 0.
    #[error("batch {batch} of half {half} breaks the format, in block {block}")]
    BadJournal {
        /// The half, 0 or 1.
        half: u8,
        /// The number of the batch in the half, from 0.
        batch: u32,
        /// The block of the disk that has the batch's first byte.
        block: u32,
    },
}

impl From<DiskFailed> for JournalFault {
    ghost use Rattle.gate_journal.specs.declared.faults.JournalFault.TheVariants.{Device};

    ghost from_gives = { λ _ fault. fault ≡ Device };

    fn from(_error: DiskFailed) -> JournalFault {
        JournalFault::Device
    }
}

impl From<AllocError> for JournalFault {
    ghost use Rattle.gate_journal.specs.declared.faults.JournalFault.TheVariants.{NoMemory};

    ghost from_gives = { λ _ fault. fault ≡ NoMemory };

    fn from(_error: AllocError) -> JournalFault {
        JournalFault::NoMemory
    }
}

impl From<DiskFailed> for LoadFault {
    ghost use Rattle.gate_journal.specs.declared.faults.LoadFault.TheVariants.{Device};

    ghost from_gives = { λ _ fault. fault ≡ Device };

    fn from(_error: DiskFailed) -> LoadFault {
        LoadFault::Device
    }
}

impl From<AllocError> for LoadFault {
    ghost use Rattle.gate_journal.specs.declared.faults.LoadFault.TheVariants.{NoMemory};

    ghost from_gives = { λ _ fault. fault ≡ NoMemory };

    fn from(_error: AllocError) -> LoadFault {
        LoadFault::NoMemory
    }
}

impl<T: Drop> From<AllocFailed<T>> for LoadFault {
    ghost use Rattle.gate_journal.specs.declared.faults.LoadFault.TheVariants.{NoMemory};

    ghost from_gives = { λ _ fault. fault ≡ NoMemory };

    fn from(_error: AllocFailed<T>) -> LoadFault {
        LoadFault::NoMemory
    }
}
