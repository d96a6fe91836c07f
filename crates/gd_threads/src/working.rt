//! The writes of a round are run: by workers side by side, and what they leave by their caller.
ghost use Rattle.std.specs.Prelude.{◌≡◌, ◌≤◌, ◌<◌, ◌+◌, ◌^◌, ℕ, List, [], length, map};
ghost use Rattle.std.specs.Prelude.{vec_capacity, false};
ghost use Rattle.std.specs.List.{All};
ghost use Rattle.std.specs.Thread.{IsSend, IsSync};
ghost use Rattle.gd_input.specs.Line.{IsShort};
ghost use Rattle.gd_input.specs.Rounds.{AreKept};
ghost use Rattle.gd_runs.specs.Explained.{Numbered};
ghost use Rattle.gd_core_laws.specs.Round.{write_lines};
ghost use Rattle.gd_round_lines.specs.Fresh.{IsFreshFrom};
ghost use Rattle.gd_round_lines.specs.Works.{texts_of, write_of, AreRead, AreWithin};
ghost use Rattle.gd_crew.specs.PassedOn.{AllRight};
ghost use Rattle.gd_crew.specs.Jobs.{AreNumbered};
ghost use Rattle.gd_crew.specs.Ready.{IsIdle, IsManned, lent};
ghost use Rattle.gd_crew.specs.Joined.{HasWorked, IsJoined};
ghost use Rattle.gd_threads.specs.Working.{ShowsMore, KeepsNow, Joins, RunsWrites};

use core::mem::replace_with;
use gd_cache::cache::ReplyCache;
use gd_caller::writes::write_left;
use gd_crew::assign::assign;
use gd_crew::round::run_round;
use gd_crew::worker::Worker;
use gd_crew::{Session, WriteSide};
use gd_disk::disk::Disk;
use gd_input::line::RoundLine;
use gd_outside::clock::Clock;
use gd_outside::gate::Gate;
use gd_round_lines::work::Works;
use std::alloc::Global;
use std::sync::Wait;
use std::thread::Threads;

/// Shows what was stored before, if there is memory for that, and says how much is shown. It waits
/// for readers.
pub(crate) fn show<R: Wait, D: Disk, C: Clock>(rt: &R, side: &mut WriteSide<D, C>) -> u32
    ensures shows { ShowsMore side.old side.new }
    ensures shown { result ≡ length side.new.shown }
    ensures keeps { KeepsNow D.content D.moment D.images D.images_since C.may side.new }
{
    // A side says here what it keeps, before and after.
    let _stored = side.stored();
    let _shown = side.publish_late(rt);
    let _kept = side.stored();
    side.shown()
}

/// The workers of a round, with the sessions that have a line in it, which look the replies to
/// their reads up in these caches, if there are any. There is none where not all lines were read, or
/// where there was no memory to assign them.
pub(crate) fn hire<'a, D: Disk, C: Clock>(
    alloc: Global,
    workers: u32,
    budget: u64,
    side: &WriteSide<D, C>,
    works: &'a Works,
    caches: &'a [ReplyCache],
    seats: &mut Vec<Session>,
) -> Vec<Worker<'a>>
    requires workers { 0 < workers }
    requires budget { (0 < budget) × (budget ≤ 1_000_000) }
    requires numbered { AreNumbered works.now }
    requires right { AllRight side.now.shown caches.now }
    requires idle { All (IsIdle side.now.table) seats.old.items }
    requires room { length seats.old.items ≤ vec_capacity seats.old }
    ensures idle { All (IsIdle side.now.table) seats.new.items }
    ensures manned { All (IsManned side.now.table works.now) result.items }
    ensures alone { works.now.whole ≡ false → result.items ≡ [] }
    ensures count { length seats.new.items + lent result.items ≡ length seats.old.items }
    ensures capacity { vec_capacity seats.new ≡ vec_capacity seats.old }
{
    if works.whole {
        return match assign(alloc, workers, budget, side, works, caches, seats) {
            Ok(hired) => hired,
            Err(_) => Vec::new(alloc),
        };
    }
    Vec::new(alloc)
}

/// What a side is handed over with to the workers of a round.
struct Handed<'a, R, G> {
    rt: &'a R,
    alloc: Global,
    gate: &'a G,
    first: u64,
    lines: &'a [RoundLine],
    works: &'a Works,
    workers: Vec<Worker<'a>>,
}

/// Runs workers with a side that is handed over to them, and gives both back. What its bounds say
/// is asked of whoever passes it on by its name.
fn run_handed<'a, R: Threads + Wait + Sync, D: Disk + Send, C: Clock + Send, G: Gate>(
    side: WriteSide<D, C>,
    handed: Handed<'a, R, G>,
) -> (WriteSide<D, C>, Vec<Worker<'a>>)
    requires bounds { IsSend D.row × IsSend C.row × IsSync R.row × IsSync G.row }
    requires none { side.outcomes ≡ [] }
    requires fresh { IsFreshFrom handed.first side.history side.doubt }
    requires short { All IsShort handed.lines.now }
    requires writes { (given : List Numbered) → AreKept handed.lines.now (texts_of given)
        → map write_of handed.works.now.writes.items ≡ write_lines handed.first given }
    requires manned { All (IsManned side.table handed.works.now) handed.workers.items }
    ensures joined { IsJoined D.content D.moment D.images D.images_since D.faults C.may
        (map write_of handed.entry.works.now.writes.items) side result.0 }
    ensures worked { All (HasWorked side.table handed.entry.works.now.reads.items) result.1.items }
    ensures lent { lent result.1.items ≡ lent handed.entry.workers.items }
{
    let Handed {
        rt,
        alloc,
        gate,
        first,
        lines,
        works,
        mut workers,
    } = handed;
    let side = run_round(
        rt,
        alloc,
        side,
        first,
        lines,
        works,
        workers.as_mut_slice(),
        gate,
    );
    (side, workers)
}

/// Runs the workers of a round, where all of its lines were read.
fn join<'a, R: Threads + Wait + Sync, D: Disk + Send, C: Clock + Send, G: Gate>(
    rt: &'a R,
    alloc: Global,
    gate: &'a G,
    side: &mut WriteSide<D, C>,
    first: u64,
    lines: &'a [RoundLine],
    works: &'a Works,
    workers: Vec<Worker<'a>>,
) -> Vec<Worker<'a>>
    requires keeps { KeepsNow D.content D.moment D.images D.images_since C.may side.old }
    requires none { side.old.outcomes ≡ [] }
    requires fresh { IsFreshFrom first side.old.history side.old.doubt }
    requires short { All IsShort lines.now }
    requires read { (given : List Numbered) → AreKept lines.now (texts_of given)
        → AreRead first given works.now }
    requires within { AreWithin first (first + length lines.now) works.now }
    requires manned { All (IsManned side.old.table works.now) workers.items }
    requires alone { works.now.whole ≡ false → workers.items ≡ [] }
    ensures joins { Joins D.content D.moment D.images D.images_since D.faults C.may works.now
        side.old side.new }
    ensures worked { All (HasWorked side.new.table works.now.reads.items) result.items }
    ensures lent { lent result.items ≡ lent workers.entry.items }
{
    if !works.whole {
        return workers;
    }
    let handed = Handed {
        rt,
        alloc,
        gate,
        first,
        lines,
        works,
        workers,
    };
    replace_with(side, handed, run_handed::<R, D, C, G>)
}

/// Runs the workers of a round, and then the writes that they left. It waits for the workers, and
/// for readers.
pub(crate) fn run<'a, R: Threads + Wait + Sync, D: Disk + Send, C: Clock + Send, G: Gate>(
    rt: &'a R,
    alloc: Global,
    gate: &'a G,
    side: &mut WriteSide<D, C>,
    first: u64,
    lines: &'a [RoundLine],
    works: &'a Works,
    workers: Vec<Worker<'a>>,
) -> Vec<Worker<'a>>
    requires keeps { KeepsNow D.content D.moment D.images D.images_since C.may side.old }
    requires none { side.old.outcomes ≡ [] }
    requires fresh { IsFreshFrom first side.old.history side.old.doubt }
    requires lines { first + length lines.now < 2 ^ 63 }
    requires short { All IsShort lines.now }
    requires read { (given : List Numbered) → AreKept lines.now (texts_of given)
        → AreRead first given works.now }
    requires within { AreWithin first (first + length lines.now) works.now }
    requires manned { All (IsManned side.old.table works.now) workers.items }
    requires alone { works.now.whole ≡ false → workers.items ≡ [] }
    ensures runs { RunsWrites D.content D.moment D.images D.images_since D.faults C.may works.now
        side.old side.new }
    ensures worked { All (HasWorked side.new.table works.now.reads.items) result.items }
    ensures lent { lent result.items ≡ lent workers.entry.items }
{
    let workers = join(rt, alloc, gate, side, first, lines, works, workers);
    // A side says here what it keeps.
    let _stored = side.stored();
    write_left(rt, side, works.writes.as_slice());
    workers
}
