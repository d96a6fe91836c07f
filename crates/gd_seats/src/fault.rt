//! Why a session gives nothing.
use gd_read::fault::ReadFault;
use thiserror::Error;

/// Why a session begins no reading, or does not go on with one.
#[derive(Debug, Drop, Error)]
pub enum SessionFault {
    /// The reading is refused, or there was no memory for it. The session has entered, and holds no
    /// reading.
    #[error(transparent)]
    Read(ReadFault),
    /// The session was not let in. It is as it was, but for the count of its refusals.
    #[error("the seat was turned away")]
    Shut,
}
