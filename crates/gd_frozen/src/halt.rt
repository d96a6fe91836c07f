//! Why reading stops where it takes memory.
ghost use Rattle.std.specs.Prelude.{◌≡◌};

use crate::stop::Stop;
use gd_base::memory::Memory;
use std::alloc::AllocFailed;

/// Why a reader that takes memory stops.
#[derive(Clone, Copy)]
pub(crate) enum Halt {
    /// No text of its grammar goes on with the next of the last `left` bytes.
    Bad { left: usize },
    /// An allocation was refused.
    Memory,
}

impl From<Stop> for Halt {
    ghost use Rattle.gd_frozen.specs.declared.halt.Halt.TheVariants.{Bad};

    ghost from_gives = { λ stop halt. halt ≡ Bad stop.left };

    fn from(stop: Stop) -> Halt {
        Halt::Bad { left: stop.left }
    }
}

impl<T: Drop> From<AllocFailed<T>> for Halt {
    ghost use Rattle.gd_frozen.specs.declared.halt.Halt.TheVariants.{Memory as no_memory};

    ghost from_gives = { λ _ halt. halt ≡ no_memory };

    fn from(_refused: AllocFailed<T>) -> Halt {
        Halt::Memory
    }
}

impl From<Memory> for Halt {
    ghost use Rattle.gd_frozen.specs.declared.halt.Halt.TheVariants.{Memory as no_memory};

    ghost from_gives = { λ _ halt. halt ≡ no_memory };

    fn from(_refused: Memory) -> Halt {
        Halt::Memory
    }
}
