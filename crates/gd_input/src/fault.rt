//! Why no round is read.
ghost use Rattle.std.specs.Prelude.{◌≡◌};
ghost use Rattle.gd_input.specs.declared.fault.InputFault.TheVariants.{Failed as input_failed};
ghost use Rattle.gd_input.specs.declared.fault.InputFault.TheVariants.{Memory as no_memory};

use gd_outside::Failed;
use std::alloc::{AllocError, AllocFailed};
use thiserror::Error;

/// Why a round was not read.
#[derive(Clone, Copy, Debug, PartialEq, Eq, Error)]
pub enum InputFault {
    /// The source failed.
    #[error("the input failed")]
    Failed,
    /// 2^40 bytes of the input were taken, and it had not ended.
    #[error("too much input")]
    TooMuch,
    /// An allocation was refused.
    #[error("out of memory")]
    Memory,
}

impl From<Failed> for InputFault {
    ghost from_gives = { λ _ fault. fault ≡ input_failed };

    fn from(_failed: Failed) -> InputFault {
        InputFault::Failed
    }
}

impl From<AllocError> for InputFault {
    ghost from_gives = { λ _ fault. fault ≡ no_memory };

    fn from(_refused: AllocError) -> InputFault {
        InputFault::Memory
    }
}

impl<T: Drop> From<AllocFailed<T>> for InputFault {
    ghost from_gives = { λ _ fault. fault ≡ no_memory };

    fn from(_refused: AllocFailed<T>) -> InputFault {
        InputFault::Memory
    }
}
