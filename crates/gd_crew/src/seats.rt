//! Seats that are lent, and that come back.
ghost use Rattle.std.specs.Prelude.{◌≡◌, ◌≤◌, ◌<◌, ◌+◌, length, vec_capacity, IfOk, IfSome, MatchResult};
ghost use Rattle.std.specs.List.{All};
ghost use Rattle.gd_cache.specs.Right.{KeepsRight};
ghost use Rattle.gd_crew.specs.Jobs.{AreNumbered};
ghost use Rattle.gd_crew.specs.Ready.{IsIdle, IsReady};

use crate::jobs::jobs_of;
use crate::seated::Seated;
use gd_base::memory::Memory;
use gd_cache::cache::ReplyCache;
use gd_round_lines::work::Works;
use gd_seats::session::Session;
use gd_shared::Receipt;
use std::alloc::Global;

/// Takes a seat back. Its reading ends, if it holds one.
pub(crate) fn take_back(mut session: Session, seats: &mut Vec<Session>)
    requires room { length seats.old.items < vec_capacity seats.old }
    requires idle { All (IsIdle session.seat.history) seats.old.items }
    ensures idle { All (IsIdle session.seat.history) seats.new.items }
    ensures count { length seats.new.items ≡ length seats.old.items + 1 }
    ensures capacity { vec_capacity seats.new ≡ vec_capacity seats.old }
{
    session.end();
    seats.push_reserved(session);
}

/// Lends a seat to a session, which learns of all that is shown and has its jobs; what it looks up
/// is right over all that. `Memory`: an allocation was refused.
pub(crate) fn lend<'a>(
    alloc: Global,
    sid: u32,
    shown: Receipt,
    works: &'a Works,
    cache: Option<&'a ReplyCache>,
    seats: &mut Vec<Session>,
) -> Result<Seated<'a>, Memory>
    requires numbered { AreNumbered works.now }
    requires right { IfSome cache (λ c. KeepsRight shown.list c.now) }
    requires idle { All (IsIdle shown.history) seats.old.items }
    requires room { length seats.old.items ≤ vec_capacity seats.old }
    requires some { 0 < length seats.old.items }
    ensures idle { All (IsIdle shown.history) seats.new.items }
    ensures ready { IfOk result (λ seated. IsReady shown.history works.now seated) }
    ensures count { MatchResult result (λ _. length seats.new.items + 1 ≡ length seats.old.items)
        (λ _. length seats.new.items ≡ length seats.old.items) }
    ensures capacity { vec_capacity seats.new ≡ vec_capacity seats.old }
{
    let jobs = jobs_of(alloc, works, sid, cache)?;
    let Some(mut session) = seats.pop() else {
        unreachable!();
    };
    session.learn(shown);
    match Seated::new(alloc, sid, session, jobs) {
        Ok(seated) => Ok(seated),
        Err((memory, session)) => {
            seats.push_reserved(session);
            Err(memory)
        }
    }
}
