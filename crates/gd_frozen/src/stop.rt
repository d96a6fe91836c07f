//! Why reading stops.
use thiserror::Error;

/// Why bytes are not read as a cursor.
#[derive(Clone, Copy, Debug, PartialEq, Eq, Error)]
pub enum FrozenFault {
    /// The bytes are no such text, and the longest front of them that begins one has `offset`
    /// bytes.
    #[error("the bytes are no cursor at byte {offset}")]
    BadFrozen { offset: u64 },
    /// An allocation was refused.
    #[error("out of memory")]
    Memory,
}

/// Where a reader stops: no text of its grammar goes on with the next of the last `left` bytes.
#[derive(Clone, Copy)]
pub(crate) struct Stop {
    pub(crate) left: usize,
}
