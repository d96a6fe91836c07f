//! Why a call of a journal gives up.
ghost use Rattle.std.specs.Prelude.{◌≡◌};
ghost use Rattle.gd_journal.specs.declared.fault.JournalFault.TheVariants as why;

use gd_base::memory::Memory;
use gd_disk::Failed;
use std::alloc::{AllocError, AllocFailed};
use thiserror::Error;

/// Why a call of a journal gives up.
#[derive(Clone, Copy, Debug, PartialEq, Eq, Error)]
pub enum JournalFault {
    /// The disk failed.
    #[error("the disk failed")]
    DiskFault,
    /// The file has more than 9 bytes and begins with neither header.
    #[error("the file is no store")]
    NotStore,
    /// The record whose gate stands at this offset is damaged.
    #[error("the record at byte {offset} is damaged")]
    Damaged { offset: u64 },
    /// An allocation was refused.
    #[error("out of memory")]
    Memory,
}

impl From<Failed> for JournalFault {
    ghost from_gives = { λ _ fault. fault ≡ why.DiskFault };

    fn from(_failed: Failed) -> JournalFault {
        JournalFault::DiskFault
    }
}

impl From<Memory> for JournalFault {
    ghost from_gives = { λ _ fault. fault ≡ why.Memory };

    fn from(_refused: Memory) -> JournalFault {
        JournalFault::Memory
    }
}

impl From<AllocError> for JournalFault {
    ghost from_gives = { λ _ fault. fault ≡ why.Memory };

    fn from(_refused: AllocError) -> JournalFault {
        JournalFault::Memory
    }
}

impl<T: Drop> From<AllocFailed<T>> for JournalFault {
    ghost from_gives = { λ _ fault. fault ≡ why.Memory };

    fn from(_refused: AllocFailed<T>) -> JournalFault {
        JournalFault::Memory
    }
}
