//! Why reading stops.
ghost use Rattle.std.specs.Prelude.{◌≡◌};

use gd_base::memory::Memory;
use std::alloc::AllocFailed;
use thiserror::Error;

/// Why bytes are not read as a group.
#[derive(Clone, Copy, Debug, PartialEq, Eq, Error)]
pub enum CodecFault {
    /// The bytes are no group, and the longest front of them that begins some group has `offset`
    /// bytes.
    #[error("the bytes are no group of batches at byte {offset}")]
    BadBytes { offset: u64 },
    /// An allocation was refused.
    #[error("out of memory")]
    Memory,
}

/// Why a reader stops.
#[derive(Clone, Copy, Debug, PartialEq, Eq)]
pub(crate) enum Stop {
    /// No text of the grammar goes on with the next of the last `left` bytes.
    Bad { left: usize },
    /// An allocation was refused.
    Memory,
}

impl From<Memory> for Stop {
    ghost use Rattle.gd_codec.specs.declared.stop.Stop.TheVariants.{Memory as no_memory};

    ghost from_gives = { λ _ stop. stop ≡ no_memory };

    fn from(_refused: Memory) -> Stop {
        Stop::Memory
    }
}

impl<T: Drop> From<AllocFailed<T>> for Stop {
    ghost use Rattle.gd_codec.specs.declared.stop.Stop.TheVariants.{Memory as no_memory};

    ghost from_gives = { λ _ stop. stop ≡ no_memory };

    fn from(_refused: AllocFailed<T>) -> Stop {
        Stop::Memory
    }
}
