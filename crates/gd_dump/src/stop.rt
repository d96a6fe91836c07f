//! Why writing and reading stop.
ghost use Rattle.std.specs.Prelude.{◌≡◌};

use gd_base::memory::Memory;
use std::alloc::{AllocError, AllocFailed};
use thiserror::Error;

/// Why a dump is not written.
#[derive(Clone, Copy, Debug, PartialEq, Eq, Error)]
pub enum DumpFault {
    /// The store has fewer batches than the first number says.
    #[error("the dump is to start at {asked}, and the store has {have} batches")]
    DumpFrom { asked: u32, have: u32 },
    /// The sink failed.
    #[error("the dump could not be written")]
    SinkFault,
    /// An allocation was refused.
    #[error("out of memory")]
    Memory,
}

/// Why bytes are not read as a dump.
#[derive(Clone, Copy, Debug, PartialEq, Eq, Error)]
pub enum RestoreFault {
    /// The text is no dump, and the longest front of it that begins some dump has `offset` bytes.
    #[error("the text is no dump at byte {offset}")]
    BadDump { offset: u64 },
    /// An allocation was refused, or more than 2^64 - 1 bytes came.
    #[error("out of memory")]
    Memory,
}

/// Why a reader stops.
#[derive(Clone, Copy)]
pub(crate) enum Stop {
    /// No text of the grammar goes on with the next of the last `left` bytes.
    Bad { left: usize },
    /// An allocation was refused.
    Memory,
}

impl From<Memory> for Stop {
    ghost use Rattle.gd_dump.specs.declared.stop.Stop.TheVariants.{Memory as no_memory};

    ghost from_gives = { λ _ stop. stop ≡ no_memory };

    fn from(_refused: Memory) -> Stop {
        Stop::Memory
    }
}

impl<T: Drop> From<AllocFailed<T>> for Stop {
    ghost use Rattle.gd_dump.specs.declared.stop.Stop.TheVariants.{Memory as no_memory};

    ghost from_gives = { λ _ stop. stop ≡ no_memory };

    fn from(_refused: AllocFailed<T>) -> Stop {
        Stop::Memory
    }
}

impl From<AllocError> for RestoreFault {
    ghost use Rattle.gd_dump.specs.declared.stop.RestoreFault.TheVariants.{Memory as no_memory};

    ghost from_gives = { λ _ fault. fault ≡ no_memory };

    fn from(_refused: AllocError) -> RestoreFault {
        RestoreFault::Memory
    }
}

impl From<Memory> for DumpFault {
    ghost use Rattle.gd_dump.specs.declared.stop.DumpFault.TheVariants.{Memory as no_memory};

    ghost from_gives = { λ _ fault. fault ≡ no_memory };

    fn from(_refused: Memory) -> DumpFault {
        DumpFault::Memory
    }
}
