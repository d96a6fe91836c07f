//! Why an input is not read to its end.
use std::alloc::AllocError;
use std::io;
use thiserror::Error;

/// Why an input is not read to its end.
#[derive(Clone, Copy, Debug, PartialEq, Eq, Error)]
pub(crate) enum Trouble {
    /// An allocation was refused.
    #[error("out of memory")]
    Memory,
    /// Standard input or output failed.
    #[error("input or output failed")]
    Failed,
}

impl From<AllocError> for Trouble {
    fn from(_refused: AllocError) -> Trouble {
        Trouble::Memory
    }
}

impl From<io::Error> for Trouble {
    fn from(fault: io::Error) -> Trouble {
        match fault.kind() {
            io::ErrorKind::OutOfMemory => Trouble::Memory,
            _ => Trouble::Failed,
        }
    }
}
