//! Why a node answers no further.
ghost use Rattle.std.specs.Prelude.{◌≡◌};
ghost use Rattle.gd_following.specs.Stops.{ended_by};

use gd_answering::stop::Stop;
use gd_journal::fault::JournalFault;
use thiserror::Error;

/// Why a node answered no further, before the end of the input.
#[derive(Clone, Copy, Debug, PartialEq, Eq, Error)]
pub enum FollowStop {
    /// The store was not opened, and nothing was read.
    #[error("not opened: {0}")]
    Unopened(JournalFault),
    /// It was opened, and the input or the output stopped.
    #[error("{0}")]
    Stopped(Stop),
}

/// How it ends where answering the lines ended so.
pub(crate) fn ended(end: Result<(), Stop>) -> Result<(), FollowStop>
    ensures { result ≡ ended_by end }
{
    match end {
        Ok(()) => Ok(()),
        Err(stop) => Err(FollowStop::Stopped(stop)),
    }
}
