//! Why a run of events stops before the end of its input.
ghost use Rattle.std.specs.Prelude.{◌≡◌};
ghost use Rattle.gd_replay.specs.Stops.{stop_of};

use gd_input::fault::InputFault;
use gd_journal::fault::JournalFault;
use thiserror::Error;

/// Why a run of events stopped before the end of its input.
#[derive(Clone, Copy, Debug, PartialEq, Eq, Error)]
pub enum Stop {
    /// The source failed.
    #[error("the input failed")]
    ReadFault,
    /// The sink failed.
    #[error("the output failed")]
    SinkFault,
    /// An allocation was refused, so that a line could not be read, or a reply not be made.
    #[error("out of memory")]
    Memory,
    /// 2^40 bytes of the input were taken, and it had not ended.
    #[error("too much input")]
    TooMuch,
    /// The store was not opened, and nothing was read.
    #[error("not opened: {0}")]
    Unopened(JournalFault),
    /// The store was closed, and not opened again.
    #[error("not opened again: {0}")]
    Lost(JournalFault),
}

impl Stop {
    /// What a fault of the input stops a run by.
    pub fn of_input(fault: InputFault) -> Stop
        ensures { result ≡ stop_of fault }
    {
        match fault {
            InputFault::Failed => Stop::ReadFault,
            InputFault::TooMuch => Stop::TooMuch,
            InputFault::Memory => Stop::Memory,
        }
    }
}
