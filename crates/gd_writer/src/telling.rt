//! What an outcome tells.
ghost use Rattle.std.specs.Prelude.{◌≡◌};
ghost use Rattle.gd_core_laws.specs.Round.{kept_reply};
ghost use Rattle.gd_reply.specs.Replies.{reply_text};
ghost use Rattle.gd_writer.specs.Outcomes.{kept_view, IsTold};

use crate::outcome::Outcome;
use gd_reply::reply::{Failure, Reply};

impl Outcome {
    /// The reply to the write line that came to this. It takes no memory.
    pub fn tell(self, line: u64) -> Reply
        requires told { IsTold line self }
        ensures { reply_text result ≡ kept_reply line (kept_view self) }
    {
        match self {
            Outcome::Stored { reply, .. } => Reply::Line(reply),
            Outcome::Refused { reply, .. } => Reply::Line(reply),
            Outcome::Late { entry } => Reply::Late { line, entry },
            Outcome::Doubt { .. } => Reply::Failed {
                failure: Failure::MaybeStored,
                line,
            },
            Outcome::Unsettled => Reply::Failed {
                failure: Failure::NotStored,
                line,
            },
            Outcome::Memory => Reply::no_memory(line),
        }
    }
}
