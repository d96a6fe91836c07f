//! Writes of a session.
ghost use Rattle.std.specs.Prelude.{◌≡◌, ◌+◌, ◌<◌, ◌≤◌, ◌^◌, ◌∷◌, [], length, map, Some};
ghost use Rattle.gd_runs.specs.Side.{Kept, IsFresh, told_of};
ghost use Rattle.gd_mql.specs.Requests.{write_view};
ghost use Rattle.gd_core_laws.specs.Round.{kept_reply};
ghost use Rattle.gd_reply.specs.Replies.{reply_text};
ghost use Rattle.gd_writer.specs.Outcomes.{kept_view, told_view};
ghost use Rattle.gd_writer.specs.Side.{GoesOn};
ghost use Rattle.gd_sessions.specs.Writes.{IsShown, IsToldKept, WritesFor};

use crate::held::Held;
use gd_disk::disk::Disk;
use gd_mql::request::WriteRequest;
use gd_outside::clock::Clock;
use gd_reply::reply::Reply;
use gd_writer::outcome::Outcome;
use gd_writer::side::WriteSide;
use std::alloc::Global;
use std::sync::Wait;

/// The session has seen the entry, where one is stored and shown.
fn see_kept(held: &mut Held, shown: u32, outcome: &Outcome)
    requires { IsShown shown (kept_view outcome.now) }
    ensures { IsToldKept (kept_view outcome.now) shown held.old held.new }
{
    match outcome {
        Outcome::Stored { entry, .. } => held.see(shown, *entry + 1),
        _ => (),
    }
}

/// Tells the session what is kept of its write, and forgets it.
fn tell<D: Disk, C: Clock>(
    alloc: Global,
    side: &mut WriteSide<D, C>,
    held: &mut Held,
    line: u64,
) -> Reply
    requires line { line < 2 ^ 63 }
    requires one { (kept : Kept) × (side.old.outcomes ≡ told_of line kept ∷ []) }
    ensures told { (kept : Kept) → side.old.outcomes ≡ told_of line kept ∷ []
        → IsToldKept kept (length side.old.shown) held.old held.new }
    ensures reply { (kept : Kept) → side.old.outcomes ≡ told_of line kept ∷ []
        → reply_text result ≡ kept_reply line kept }
    ensures side { side.new ≡ record side.old { outcomes = [] } }
{
    let shown = side.shown();

    // A side says here that each line that is kept as stored is shown.
    let _stored = side.stored();
    let mut outcomes = side.take_outcomes(alloc);
    match outcomes.pop() {
        Some(told) => {
            see_kept(held, shown, &told.outcome);
            told.outcome.tell(line)
        }
        None => unreachable!(),
    }
}

/// Carries a write of the session out, and tells it what it came to; `bytes` is the length of the
/// line. Publishing waits for readers.
pub(crate) fn write<R: Wait, D: Disk, C: Clock>(
    rt: &R,
    alloc: Global,
    side: &mut WriteSide<D, C>,
    held: &mut Held,
    line: u64,
    bytes: u64,
    request: &WriteRequest,
) -> Reply
    requires none { side.old.outcomes ≡ [] }
    requires fresh { IsFresh side.old.history side.old.doubt line }
    requires bytes { bytes ≤ 262_144 }
    requires line { line < 2 ^ 63 }
    ensures writes { WritesFor (C.may side.old.clock) D.faults side.old line bytes
        (write_view request.now) side.new held.old held.new (reply_text result) }
    ensures goes { GoesOn D.content D.moment D.images D.images_since D.faults C.may side.old
        side.new }
{
    match side.write(rt, line, request, bytes) {
        Ok(()) => tell(alloc, side, held, line),
        Err(_) => Reply::no_memory(line),
    }
}
