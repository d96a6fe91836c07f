//! Why templates are answered no further.
ghost use Rattle.std.specs.Prelude.{◌≡◌};
ghost use Rattle.gd_patterns.specs.Stops.{ended_by};

use gd_answering::stop::Stop;
use gd_journal::fault::JournalFault;
use thiserror::Error;

/// Why templates were answered no further, before the end of the input.
#[derive(Clone, Copy, Debug, PartialEq, Eq, Error)]
pub enum PatternStop {
    /// The store was not opened, and nothing was read.
    #[error("not opened: {0}")]
    Unopened(JournalFault),
    /// It was opened, and the input or the output stopped.
    #[error("{0}")]
    Stopped(Stop),
}

/// How it ends where answering the lines ended so.
pub(crate) fn ended(end: Result<(), Stop>) -> Result<(), PatternStop>
    ensures { result ≡ ended_by end }
{
    match end {
        Ok(()) => Ok(()),
        Err(stop) => Err(PatternStop::Stopped(stop)),
    }
}
