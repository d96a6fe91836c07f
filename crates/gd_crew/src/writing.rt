//! A turn of a session at a write line.
ghost use Rattle.std.specs.Prelude.{◌≡◌, ◌<◌, ◌≤◌, ◌^◌, IfSome, MatchResult, length};
ghost use Rattle.gd_mql.specs.Requests.{write_view};
ghost use Rattle.gd_crew.specs.Round.{begun, IsOfRound};
ghost use Rattle.gd_crew.specs.Writing.{HasLearned, LearnsOf};

use crate::writers::{Round, Writers};
use gd_base::memory::Memory;
use gd_disk::disk::Disk;
use gd_mql::request::WriteRequest;
use gd_outside::clock::Clock;
use gd_seats::session::Session;
use gd_shared::Receipt;
use std::sync::Wait;

/// Has a session learn of what a receipt is of, if one came.
fn learn_of(session: &mut Session, found: Option<Receipt>)
    requires table { IfSome found (λ receipt. receipt.history ≡ session.old.seat.history) }
    ensures of { LearnsOf found session.old session.new }
    ensures learned { HasLearned session.old session.new }
{
    if let Some(receipt) = found {
        session.learn(receipt);
    }
}

/// Writes a line of the round, and has the session learn of it where it is stored and shown.
/// `Memory`: there was no room for its outcome.
pub(crate) fn write_turn<L: Round, D: Disk, C: Clock, R: Wait>(
    session: &mut Session,
    rt: &R,
    writers: &Writers<L, D, C>,
    line: u64,
    before: Option<u64>,
    request: &WriteRequest,
    bytes: u64,
) -> Result<(), Memory>
    requires of_round { IsOfRound (begun L.named) line before (write_view request.now) bytes }
    requires bytes { bytes ≤ 262_144 }
    requires line { line < 2 ^ 63 }
    requires table { session.old.seat.history ≡ L.named.table }
    ensures { HasLearned session.old session.new }
{
    let found = writers.write(rt, line, before, request, bytes)?;
    learn_of(session, found);
    Ok(())
}
