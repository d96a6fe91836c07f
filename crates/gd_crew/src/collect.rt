//! What is taken of workers after a round: their seats, and the replies that fit what is shown.
ghost use Rattle.std.specs.Prelude.{◌≡◌, ◌≤◌, ◌<◌, ◌+◌, ◌∷◌, [], length, map, None, Some};
ghost use Rattle.std.specs.Prelude.{slice_set, vec_capacity};
ghost use Rattle.std.specs.List.{All, AllByRecursion};
ghost use Rattle.gd_runs.specs.Legal.{batches};
ghost use Rattle.gd_round_lines.specs.Worked.{AreWorked};
ghost use Rattle.gd_crew.specs.Seated.{reply_view};
ghost use Rattle.gd_crew.specs.Ready.{IsIdle, lent};
ghost use Rattle.gd_crew.specs.Joined.{HasWorked};
ghost use Rattle.gd_crew.specs.Collected.{IsOfTable, TakesReplies, TakesSessions, TakesWorkers};

use crate::job::ReadReply;
use crate::seated::Seated;
use crate::seats::take_back;
use crate::worker::Worker;
use gd_disk::disk::Disk;
use gd_outside::clock::Clock;
use gd_round_lines::work::Works;
use gd_round_lines::worked::Worked;
use gd_seats::session::Session;
use gd_shared::Receipt;
use gd_writer::side::WriteSide;
use std::alloc::Global;

/// Has what a worker kept at a place.
fn put(worked: &mut Vec<Option<Worked>>, place: usize, kept: Worked)
    requires { place < length worked.old.items }
    ensures { worked.new.items ≡ slice_set worked.old.items place (Some kept) }
{
    worked[place] = Some(kept);
}

/// Keeps the reply to a read line, if there is one and a place for its line, the first of them for
/// line `first`.
fn keep_reply(read: ReadReply, first: u64, worked: &mut Vec<Option<Worked>>)
    ensures { TakesReplies first (reply_view read ∷ []) worked.old.items worked.new.items }
{
    let ReadReply { line, at, reply } = read;
    let Some(reply) = reply else {
        return;
    };
    let Some(place) = line.checked_sub(first) else {
        return;
    };
    if place < worked.len() as u64 {
        put(worked, place as usize, Worked { at, reply });
    }
}

/// Keeps replies to read lines, each at the place of its line.
fn keep_replies(mut replies: Vec<ReadReply>, first: u64, worked: &mut Vec<Option<Worked>>)
    ensures { TakesReplies first (map reply_view replies.items) worked.old.items worked.new.items }
{
    while let Some(read) = replies.pop() {
        keep_reply(read, first, worked);
    }
}

/// Takes the seat of a session back. Its replies are kept where the list that it entered begins
/// what is shown.
fn dismiss_session(
    one: Seated<'_>,
    shown: &Receipt,
    first: u64,
    worked: &mut Vec<Option<Worked>>,
    seats: &mut Vec<Session>,
)
    requires table { IsOfTable shown.now.history one }
    requires idle { All (IsIdle shown.now.history) seats.old.items }
    requires room { length seats.old.items < vec_capacity seats.old }
    ensures worked { TakesSessions first shown.now.history shown.now.list (one.entry ∷ [])
        worked.old.items worked.new.items }
    ensures idle { All (IsIdle shown.now.history) seats.new.items }
    ensures count { length seats.new.items ≡ length seats.old.items + 1 }
    ensures capacity { vec_capacity seats.new ≡ vec_capacity seats.old }
{
    let Seated {
        session,
        replies,
        ..
    } = one;
    if session.has_only(shown) {
        keep_replies(replies, first, worked);
    }
    take_back(session, seats);
}

/// Takes the seats of sessions back, with the replies that fit what is shown.
fn dismiss_sessions(
    mut seated: Vec<Seated<'_>>,
    shown: &Receipt,
    first: u64,
    worked: &mut Vec<Option<Worked>>,
    seats: &mut Vec<Session>,
)
    requires table { All (IsOfTable shown.now.history) seated.items }
    requires idle { All (IsIdle shown.now.history) seats.old.items }
    requires room { length seats.old.items + length seated.items ≤ vec_capacity seats.old }
    ensures worked { TakesSessions first shown.now.history shown.now.list seated.entry.items
        worked.old.items worked.new.items }
    ensures idle { All (IsIdle shown.now.history) seats.new.items }
    ensures count { length seats.new.items ≡ length seats.old.items + length seated.entry.items }
    ensures capacity { vec_capacity seats.new ≡ vec_capacity seats.old }
{
    while let Some(one) = seated.pop() {
        dismiss_session(one, shown, first, worked, seats);
    }
}

/// Takes the seats of workers back. Replies are kept, each at the place of its line, where the list
/// that their session entered begins what is shown.
pub(crate) fn dismiss(
    mut workers: Vec<Worker<'_>>,
    shown: &Receipt,
    first: u64,
    worked: &mut Vec<Option<Worked>>,
    seats: &mut Vec<Session>,
)
    requires table { All (λ w. All (IsOfTable shown.now.history) w.seated.items) workers.items }
    requires idle { All (IsIdle shown.now.history) seats.old.items }
    requires room { length seats.old.items + lent workers.items ≤ vec_capacity seats.old }
    ensures worked { TakesWorkers first shown.now.history shown.now.list workers.entry.items
        worked.old.items worked.new.items }
    ensures idle { All (IsIdle shown.now.history) seats.new.items }
    ensures count { length seats.new.items ≡ length seats.old.items + lent workers.entry.items }
    ensures capacity { vec_capacity seats.new ≡ vec_capacity seats.old }
{
    while let Some(worker) = workers.pop() {
        dismiss_sessions(worker.seated, shown, first, worked, seats);
    }
}

/// So many places, at which nothing is kept, or none where there is no memory for them.
fn places(alloc: Global, count: usize) -> Vec<Option<Worked>>
    ensures { AllByRecursion (λ kept. kept ≡ None) result.items }
{
    let Ok(mut worked) = Vec::with_capacity(alloc, count) else {
        return Vec::new(alloc);
    };
    for _place in 0..count {
        worked.push_reserved(None);
    }
    worked
}

/// Takes the replies of the workers of a round, the first of its lines line `first`, and their
/// seats back. A reply is kept where the list that its session entered begins what is shown. It
/// stands at the place of its line; where there is no memory for so many places, none is kept.
pub fn collect<D: Disk, C: Clock>(
    alloc: Global,
    side: &WriteSide<D, C>,
    first: u64,
    works: &Works,
    workers: Vec<Worker<'_>>,
    seats: &mut Vec<Session>,
) -> Vec<Option<Worked>>
    requires workers { All (HasWorked side.now.table works.now.reads.items) workers.items }
    requires idle { All (IsIdle side.now.table) seats.old.items }
    requires room { length seats.old.items + lent workers.items ≤ vec_capacity seats.old }
    ensures worked { AreWorked first works.now.reads.items (batches side.now.history)
        (length side.now.shown) result.items }
    ensures idle { All (IsIdle side.now.table) seats.new.items }
    ensures count { length seats.new.items ≡ length seats.old.items + lent workers.entry.items }
    ensures capacity { vec_capacity seats.new ≡ vec_capacity seats.old }
{
    // A side says here what it keeps.
    let _stored = side.stored();
    let mut worked = places(alloc, works.replies.len());
    dismiss(workers, &side.tell(), first, &mut worked, seats);
    worked
}
