//! Why reading stops.
ghost use Rattle.std.specs.Prelude.{◌≡◌};

use gd_base::memory::Memory;
use std::alloc::AllocFailed;
use thiserror::Error;

/// Why bytes mean no template.
#[derive(Clone, Copy, Debug, PartialEq, Eq, Error)]
pub enum TplFault {
    /// The bytes are the text of no template, and the longest front of them that begins one has
    /// `offset` bytes.
    #[error("the bytes are no template at byte {offset}")]
    BadTemplate { offset: u64 },
    /// A text that words are compared with is no pattern.
    #[error("a text is no pattern")]
    BadPattern,
    /// More than 32 templates lie one within the other.
    #[error("the template is too deep")]
    TooDeep,
    /// An allocation was refused.
    #[error("out of memory")]
    Memory,
}

/// Why a reader stops.
#[derive(Clone, Copy)]
pub(crate) enum Stop {
    /// No text of the grammar goes on with the next of the last `left` bytes.
    Bad { left: usize },
    /// An allocation was refused.
    Memory,
}

impl From<Memory> for Stop {
    ghost use Rattle.gd_tplang.specs.declared.stop.Stop.TheVariants.{Memory as no_memory};

    ghost from_gives = { λ _ stop. stop ≡ no_memory };

    fn from(_refused: Memory) -> Stop {
        Stop::Memory
    }
}

impl<T: Drop> From<AllocFailed<T>> for Stop {
    ghost use Rattle.gd_tplang.specs.declared.stop.Stop.TheVariants.{Memory as no_memory};

    ghost from_gives = { λ _ stop. stop ≡ no_memory };

    fn from(_refused: AllocFailed<T>) -> Stop {
        Stop::Memory
    }
}
