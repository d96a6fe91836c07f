//! Why a text is not run to its end.
use gd_base::memory::Memory;
use gd_base::text::TextFault;
use std::alloc::{AllocError, AllocFailed};
use std::io;
use thiserror::Error;

/// Why a text is not run to its end.
#[derive(Clone, Copy, Debug, PartialEq, Eq, Error)]
pub(crate) enum Trouble {
    /// An allocation was refused.
    #[error("out of memory")]
    Memory,
    /// A line is not of the form that the README describes.
    #[error("a line is of no form")]
    BadLine,
    /// A table has more runs than any that is meant.
    #[error("a table does not end")]
    Endless,
    /// Standard input or output failed.
    #[error("input or output failed")]
    Failed,
}

impl From<Memory> for Trouble {
    fn from(_refused: Memory) -> Trouble {
        Trouble::Memory
    }
}

impl From<AllocError> for Trouble {
    fn from(_refused: AllocError) -> Trouble {
        Trouble::Memory
    }
}

impl<T: Drop> From<AllocFailed<T>> for Trouble {
    fn from(_refused: AllocFailed<T>) -> Trouble {
        Trouble::Memory
    }
}

impl From<TextFault> for Trouble {
    fn from(_fault: TextFault) -> Trouble {
        Trouble::BadLine
    }
}

impl From<io::Error> for Trouble {
    fn from(_fault: io::Error) -> Trouble {
        Trouble::Failed
    }
}
