//! Why lines are answered no further.
ghost use Rattle.std.specs.Prelude.{◌≡◌};
ghost use Rattle.gd_answering.specs.Stops.{stop_of};
ghost use Rattle.gd_answering.specs.declared.stop.Stop.TheVariants.{SinkFault as sink_fault};

use gd_input::fault::InputFault;
use gd_outside::Failed;
use thiserror::Error;

/// Why lines were answered no further, before the end of the input.
#[derive(Clone, Copy, Debug, PartialEq, Eq, Error)]
pub enum Stop {
    /// The source failed.
    #[error("the input failed")]
    ReadFault,
    /// The sink failed.
    #[error("the output failed")]
    SinkFault,
    /// An allocation was refused, so that a line could not be read.
    #[error("out of memory")]
    Memory,
    /// 2^40 bytes of the input were taken, and it had not ended.
    #[error("too much input")]
    TooMuch,
}

impl From<InputFault> for Stop {
    ghost from_gives = { λ fault stop. stop ≡ stop_of fault };

    fn from(fault: InputFault) -> Stop {
        match fault {
            InputFault::Failed => Stop::ReadFault,
            InputFault::TooMuch => Stop::TooMuch,
            InputFault::Memory => Stop::Memory,
        }
    }
}

impl From<Failed> for Stop {
    ghost from_gives = { λ _ stop. stop ≡ sink_fault };

    fn from(_failed: Failed) -> Stop {
        Stop::SinkFault
    }
}
