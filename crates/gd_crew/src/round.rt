//! The run of a round's workers.
ghost use Rattle.std.specs.Prelude.{◌≡◌, List, [], map};
ghost use Rattle.std.specs.List.{All};
ghost use Rattle.gd_runs.specs.Explained.{Numbered};
ghost use Rattle.gd_input.specs.Line.{IsShort};
ghost use Rattle.gd_input.specs.Rounds.{AreKept};
ghost use Rattle.gd_core_laws.specs.Round.{write_lines};
ghost use Rattle.gd_crew.specs.Round.{begun, BeginsRound, IsLocked};
ghost use Rattle.gd_round_lines.specs.Works.{texts_of, write_of};
ghost use Rattle.gd_round_lines.specs.Fresh.{IsFreshFrom};
ghost use Rattle.gd_crew.specs.Ready.{IsManned, lent};
ghost use Rattle.gd_crew.specs.Texts.{kept_lines};
ghost use Rattle.gd_crew.specs.Joined.{MayRun, HasRun, HaveRun, HasWorked, IsJoined};

use crate::worker::Worker;
use crate::writers::{Round, Writers};
use gd_disk::disk::Disk;
use gd_input::line::RoundLine;
use gd_outside::clock::Clock;
use gd_outside::gate::Gate;
use gd_round_lines::work::Works;
use gd_writer::side::WriteSide;
use std::alloc::Global;
use std::marker::Brand;
use std::sync::Wait;
use std::thread;
use std::thread::Threads;

/// On how many threads the workers of a round run at most.
const MOST_THREADS: usize = 16;

/// Runs each worker, on a thread of its own where one can be made.
fn run_workers<
    L: Round + Send + Sync,
    D: Disk + Send,
    C: Clock + Send,
    G: Gate,
    R: Threads + Wait + Sync,
>(rt: &R, alloc: Global, writers: &Writers<L, D, C>, workers: &mut [Worker<'_>], gate: &G)
    requires { All (MayRun (begun L.named) L.named.table) workers.old }
    ensures { HaveRun (begun L.named) L.named.table workers.old workers.new }
{
    let run = |_: usize, worker: &mut Worker<'_>|
        requires { MayRun (begun L.named) L.named.table worker.now }
        ensures { HasRun (begun L.named) L.named.table worker.entry.now worker.exit.now }
    { worker.run(rt, alloc, writers, gate) };
    thread::for_each_mut(rt, workers, MOST_THREADS, &run);
}

/// Runs the workers of the round of these lines, which `L` names, with the writes behind one lock.
fn run_named<
    L: Round + Send + Sync,
    D: Disk + Send,
    C: Clock + Send,
    G: Gate,
    R: Threads + Wait + Sync,
>(
    rt: &R,
    alloc: Global,
    side: WriteSide<D, C>,
    first: u64,
    lines: &[RoundLine],
    workers: &mut [Worker<'_>],
    gate: &G,
) -> WriteSide<D, C>
    requires lines { (L.named.first ≡ first) × (L.named.given ≡ kept_lines lines.now) }
    requires side { BeginsRound D.content D.moment D.faults C.may L.named side }
    requires workers { All (MayRun (begun L.named) L.named.table) workers.old }
    ensures side { IsLocked D.content D.moment D.images D.images_since D.faults C.may L.named
        result }
    ensures workers { HaveRun (begun L.named) L.named.table workers.old workers.new }
{
    let writers: Writers<L, D, C> = Writers::new(side);
    run_workers(rt, alloc, &writers, workers, gate);
    writers.into_side()
}

/// Runs the workers of a round, each on a thread of its own where one can be made, with the writes
/// of the round behind one lock, and gives the side back when all of them have ended. `first` is
/// the number of the first of `lines`, which `works` are. It waits for the workers, which pass the
/// gate and wait for the lock and for readers.
pub fn run_round<D: Disk + Send, C: Clock + Send, G: Gate, R: Threads + Wait + Sync>(
    rt: &R,
    alloc: Global,
    side: WriteSide<D, C>,
    first: u64,
    lines: &[RoundLine],
    works: &Works,
    workers: &mut [Worker<'_>],
    gate: &G,
) -> WriteSide<D, C>
    requires none { side.outcomes ≡ [] }

    // No entry and no write in doubt is of line `first` or a later one.
    requires fresh { IsFreshFrom first side.history side.doubt }
    requires short { All IsShort lines.now }
    requires writes { (given : List Numbered) → AreKept lines.now (texts_of given)
        → map write_of works.now.writes.items ≡ write_lines first given }
    requires workers { All (IsManned side.table works.now) workers.old }
    ensures side { IsJoined D.content D.moment D.images D.images_since D.faults C.may
        (map write_of works.now.writes.items) side result }
    ensures workers { All (HasWorked side.table works.now.reads.items) workers.new }
    ensures lent { lent workers.new ≡ lent workers.old }
{
    run_named::<Brand, D, C, G, R>(rt, alloc, side, first, lines, workers, gate)
}
