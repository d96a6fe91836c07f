//! The workers of a round, with the seats and the jobs of its sessions.
ghost use Rattle.std.specs.Prelude.{◌≡◌, ◌≤◌, ◌<◌, ◌+◌, List, length, vec_capacity, IfOk, IfSome, OnOk};
ghost use Rattle.std.specs.Prelude.{MatchResult};
ghost use Rattle.std.specs.List.{All, AllByRecursion};
ghost use Rattle.gd_prim.specs.declared.Batch.{Batch};
ghost use Rattle.gd_cache.specs.Right.{KeepsRight};
ghost use Rattle.gd_crew.specs.Jobs.{AreNumbered};
ghost use Rattle.gd_crew.specs.Ready.{IsIdle, IsReady, IsManned, MayHire, lent};

use crate::collect::dismiss;
use crate::seated::Seated;
use crate::seats::lend;
use crate::worker::Worker;
use gd_base::memory::Memory;
use gd_cache::cache::ReplyCache;
use gd_disk::disk::Disk;
use gd_outside::clock::Clock;
use gd_round_lines::work::{ReadLine, Works};
use gd_seats::session::Session;
use gd_shared::Receipt;
use gd_writer::side::WriteSide;
use std::alloc::Global;

/// Appends a session, if it is not there yet.
fn note(sessions: &mut Vec<u32>, sid: u32) -> Result<(), Memory> {
    if !sessions.contains(&sid) {
        sessions.push(sid)?;
    }
    Ok(())
}

/// Appends the sessions of the reads from a place on and before a line, and says at which place the
/// first read stands that is not before that line.
fn note_reads(
    sessions: &mut Vec<u32>,
    reads: &[ReadLine],
    from: usize,
    before: u64,
) -> Result<usize, Memory> {
    for place in from..reads.len() {
        if reads[place].line >= before {
            return Ok(place);
        }
        note(sessions, reads[place].session)?;
    }
    Ok(reads.len())
}

/// The sessions that have a read or a write in a round, in the order of their first lines.
fn sessions_of(alloc: Global, works: &Works) -> Result<Vec<u32>, Memory> {
    let reads = works.reads.as_slice();
    let mut sessions = Vec::new(alloc);
    let mut next = 0;
    for write in works.writes.as_slice() {
        next = note_reads(&mut sessions, reads, next, write.line)?;
        note(&mut sessions, write.session)?;
    }
    note_reads(&mut sessions, reads, next, u64::MAX)?;
    Ok(sessions)
}

/// How many jobs the sessions of a worker have.
fn load_of(worker: &Worker<'_>) -> usize {
    let mut jobs: usize = 0;
    for one in worker.seated.as_slice() {
        jobs = jobs.saturating_add(one.jobs.len());
    }
    jobs
}

/// The place of the first of the workers whose sessions have the fewest jobs.
fn least_loaded(hired: &[Worker<'_>]) -> usize
    requires some { 0 < length hired.now }
    ensures there { result < length hired.now }
{
    let mut least = 0;
    for place in 1..hired.len() {
        if load_of(&hired[place]) < load_of(&hired[least]) {
            least = place;
        }
    }
    least
}

/// The place of the worker who takes a further session: one more is hired where there are fewer
/// than `workers`, and else it is the one with the fewest jobs.
fn place_for(
    alloc: Global,
    hired: &mut Vec<Worker<'_>>,
    workers: u32,
    budget: u64,
) -> Result<usize, Memory>
    requires workers { 0 < workers }
    ensures hired { MayHire budget hired.old.items hired.new.items }
    ensures there { IfOk result (λ place. place < length hired.new.items) }
{
    let count = hired.len();
    if count >= workers as usize {
        return Ok(least_loaded(hired.as_slice()));
    }
    hired.push(Worker {
        number: count as u32,
        budget,
        seated: Vec::new(alloc),
    })?;
    Ok(count)
}

/// Lends a seat to a session, and has it among these.
fn seat_among<'a>(
    alloc: Global,
    seated: &mut Vec<Seated<'a>>,
    sid: u32,
    shown: Receipt,
    works: &'a Works,
    cache: Option<&'a ReplyCache>,
    seats: &mut Vec<Session>,
) -> Result<(), Memory>
    requires numbered { AreNumbered works.now }
    requires right { IfSome cache (λ c. KeepsRight shown.list c.now) }
    requires idle { All (IsIdle shown.history) seats.old.items }
    requires room { length seats.old.items ≤ vec_capacity seats.old }
    requires some { 0 < length seats.old.items }
    requires ready { All (IsReady shown.history works.now) seated.old.items }
    ensures fewer { OnOk result (length seats.new.items + 1 ≡ length seats.old.items) }
    ensures idle { All (IsIdle shown.history) seats.new.items }
    ensures ready { All (IsReady shown.history works.now) seated.new.items }
    ensures count { length seats.new.items + length seated.new.items
        ≡ length seats.old.items + length seated.old.items }
    ensures capacity { vec_capacity seats.new ≡ vec_capacity seats.old }
{
    seated.reserve(1)?;
    let one = lend(alloc, sid, shown, works, cache, seats)?;
    seated.push_reserved(one);
    Ok(())
}

/// Lends a seat to a session, with the worker who takes it.
fn seat<'a>(
    alloc: Global,
    workers: u32,
    budget: u64,
    sid: u32,
    shown: Receipt,
    works: &'a Works,
    cache: Option<&'a ReplyCache>,
    hired: &mut Vec<Worker<'a>>,
    seats: &mut Vec<Session>,
) -> Result<(), Memory>
    requires workers { 0 < workers }
    requires budget { (0 < budget) × (budget ≤ 1_000_000) }
    requires numbered { AreNumbered works.now }
    requires right { IfSome cache (λ c. KeepsRight shown.list c.now) }
    requires idle { All (IsIdle shown.history) seats.old.items }
    requires room { length seats.old.items ≤ vec_capacity seats.old }
    requires some { 0 < length seats.old.items }
    requires manned { All (IsManned shown.history works.now) hired.old.items }
    ensures fewer { OnOk result (length seats.new.items + 1 ≡ length seats.old.items) }
    ensures idle { All (IsIdle shown.history) seats.new.items }
    ensures manned { All (IsManned shown.history works.now) hired.new.items }
    ensures count { length seats.new.items + lent hired.new.items ≡ length seats.old.items + lent
        hired.old.items }
    ensures capacity { vec_capacity seats.new ≡ vec_capacity seats.old }
{
    let place = place_for(alloc, hired, workers, budget)?;
    let worker = &mut hired[place];
    seat_among(alloc, &mut worker.seated, sid, shown, works, cache, seats)
}

/// The cache of a session, where replies are kept.
fn cache_of(caches: &[ReplyCache], sid: u32) -> Option<&ReplyCache>
    ensures { (batches : List Batch) → AllByRecursion (KeepsRight batches) caches.now
        → IfSome result (λ c. KeepsRight batches c.now) }
{
    caches.get(sid as usize)
}

/// Lends seats to these sessions, in their order. `Memory`: an allocation was refused.
fn seat_all<'a, D: Disk, C: Clock>(
    alloc: Global,
    workers: u32,
    budget: u64,
    side: &WriteSide<D, C>,
    sessions: &[u32],
    works: &'a Works,
    caches: &'a [ReplyCache],
    hired: &mut Vec<Worker<'a>>,
    seats: &mut Vec<Session>,
) -> Result<(), Memory>
    requires workers { 0 < workers }
    requires budget { (0 < budget) × (budget ≤ 1_000_000) }
    requires numbered { AreNumbered works.now }
    requires right { AllByRecursion (KeepsRight side.now.shown) caches.now }
    requires idle { All (IsIdle side.now.table) seats.old.items }
    requires room { length seats.old.items + lent hired.old.items ≤ vec_capacity seats.old }
    requires enough { length sessions.now ≤ length seats.old.items }
    requires manned { All (IsManned side.now.table works.now) hired.old.items }
    ensures idle { All (IsIdle side.now.table) seats.new.items }
    ensures manned { All (IsManned side.now.table works.now) hired.new.items }
    ensures count { length seats.new.items + lent hired.new.items ≡ length seats.old.items + lent
        hired.old.items }
    ensures capacity { vec_capacity seats.new ≡ vec_capacity seats.old }
{
    for sid in sessions {
        let shown = side.tell();
        let cache = cache_of(caches, *sid);
        seat(
            alloc, workers, budget, *sid, shown, works, cache, hired, seats,
        )?;
    }
    Ok(())
}

/// Lends a seat to each session that has a line in a round, which learns of all that is shown, with
/// its reads and writes. Each session goes to a worker of its own, as long as there are fewer than
/// `workers`, and then to the one whose sessions have the fewest jobs so far; no more are hired than
/// there are sessions. A slice of a read has this budget of steps. The replies to the reads of a session are
/// looked up in its cache, at the place of its number, where there is one. Where there are fewer
/// seats than sessions nobody works. `Memory`: an allocation was refused; the seats are back, and
/// nobody works.
pub fn assign<'a, D: Disk, C: Clock>(
    alloc: Global,
    workers: u32,
    budget: u64,
    side: &WriteSide<D, C>,
    works: &'a Works,
    caches: &'a [ReplyCache],
    seats: &mut Vec<Session>,
) -> Result<Vec<Worker<'a>>, Memory>
    requires workers { 0 < workers }
    requires budget { (0 < budget) × (budget ≤ 1_000_000) }
    requires numbered { AreNumbered works.now }
    requires right { AllByRecursion (KeepsRight side.now.shown) caches.now }
    requires idle { All (IsIdle side.now.table) seats.old.items }
    requires room { length seats.old.items ≤ vec_capacity seats.old }
    ensures idle { All (IsIdle side.now.table) seats.new.items }
    ensures manned { IfOk result (λ hired. All (IsManned side.now.table works.now) hired.items) }
    ensures count { MatchResult result
        (λ hired. length seats.new.items + lent hired.items ≡ length seats.old.items)
        (λ _. length seats.new.items ≡ length seats.old.items) }
    ensures capacity { vec_capacity seats.new ≡ vec_capacity seats.old }
{
    let sessions = sessions_of(alloc, works)?;
    if seats.len() < sessions.len() {
        return Ok(Vec::new(alloc));
    }
    let mut hired = Vec::new(alloc);
    match seat_all(
        alloc,
        workers,
        budget,
        side,
        sessions.as_slice(),
        works,
        caches,
        &mut hired,
        seats,
    ) {
        Ok(()) => Ok(hired),
        Err(memory) => {
            // Nobody has run, so there is no reply to keep.
            dismiss(hired, &side.tell(), 0, &mut Vec::new(alloc), seats);
            Err(memory)
        }
    }
}
